// RFC 7253's procedures over a small cipher, computed from the definitions of standards: see proofs/Mode.antt. No code stands here.
