// The worked examples of FIPS 197, computed from the definitions of standards: see proofs/AppendixC.antt. No code stands here.
