// Samples of RFC 7253 with a tag of 128 bits, computed from the definitions of standards: see proofs/Samples.antt. No code stands here.
