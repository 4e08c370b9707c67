// The steps of FIPS 197 on the values that it prints, computed from the definitions of standards: see proofs/Steps.antt. No code stands here.
