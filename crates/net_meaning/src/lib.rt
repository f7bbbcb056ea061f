//! The values, conversions and operators of Visual Basic .NET, and that what is written for an operation of Visual Basic 6
//! gives the matching value.
#![tactic(auto)]

mod convert;
mod decimal;
mod fail;
mod operate;
mod value;
mod whole;

pub use convert::coerce_net;
pub use fail::OpNFail;
pub use operate::operate_net;
pub use value::ValueN;
pub use whole::WholeKind;
