//! What a program of Visual Basic 6 does, for every form of the profile. There is no code here.
#![tactic(auto)]
