// Longer examples of RFC 7253 with short tags, computed from the definitions of standards: see proofs/Longer.antt. No code stands here.
