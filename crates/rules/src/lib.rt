// What document 01 says of checking a certificate, and what a verified one means, is in specs/. There is no code here.
#![tactic(auto)]
