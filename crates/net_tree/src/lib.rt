//! The trees of the Visual Basic .NET projects that are written, their text, and what they mean.
#![tactic(auto)]

mod block;
mod declaration;
mod expression;
mod laws;
mod line;
mod project;

pub use block::{NetBlock, NetRole};
pub use declaration::{
    NetClose, NetConstant, NetDim, NetField, NetHead, NetMember, NetParam, NetPassing, NetProc,
    NetProperty, NetStructure, NetVariable, NetVisibility,
};
pub use expression::{CastWord, MOST_NESTED, NetBin, NetExpr, NetLit, NetType, NetUn, OpN, Path};
pub use laws::one_list_of_files;
pub use line::{NetCase, NetCounting, NetExit, NetLabel, NetLine, NetReDim};
pub use project::{NetFiles, NetModule, NetProject};
