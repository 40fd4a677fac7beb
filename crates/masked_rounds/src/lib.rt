// The rounds of FIPS 197 on data and mask apart, and that they are Cipher and InvCipher under the outgoing mask. No code.
#![tactic(auto)]
