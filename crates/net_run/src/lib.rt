//! What a written project of Visual Basic .NET does: its memory, what its names stand for, and what its expressions, lines and procedures
//! do. `run_net` of `Program` is the whole. There is no code here.
#![tactic(auto)]
