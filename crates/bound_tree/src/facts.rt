//! What the analyses find. Lists of numbers, and of tuples that begin with one, are in ascending order without repetitions.

use crate::Marks;
use up_base::{Issues, Sequence};
use vb_tree::{ClassId, ProcId, VarId};

/// Which variables make their object when they are used.
#[derive(Drop)]
pub struct ObjectFacts {
    /// The As New variables.
    pub autos: Sequence<VarId>,
    pub marks: Marks,
    pub issues: Issues,
}

/// Which procedures call which, and what they do to what they are given.
#[derive(Drop)]
pub struct RefFacts {
    /// The pairs of procedures of which the first leads directly to the second, by a call, the use of a property, or the
    /// creation of an object whose class has an initializer.
    pub calls: Sequence<(ProcId, ProcId)>,
    /// For each procedure whether it is inward.
    pub inward: Sequence<bool>,
    /// For each procedure, and for each of its parameters, whether it is quiet; false for one that takes a value.
    pub quiet: Sequence<Sequence<bool>>,
    pub marks: Marks,
    pub issues: Issues,
}

/// The lower bounds and ranks of arrays.
#[derive(Drop)]
pub struct ArrayFacts {
    /// For each variable of an array type its lower bound in the first and in the second dimension; 0 as the second where
    /// the rank is 1.
    pub lows: Sequence<(VarId, i32, i32)>,
    /// For each variable of an array type its rank. A rank above 255 is kept as 255.
    pub ranks: Sequence<(VarId, u8)>,
    pub marks: Marks,
    pub issues: Issues,
}

/// The lengths of fixed strings.
#[derive(Drop)]
pub struct FixedFacts {
    /// For each variable that is a fixed string its number of units.
    pub lengths: Sequence<(VarId, u32)>,
    pub marks: Marks,
    pub issues: Issues,
}

/// Which procedures go on after an error.
#[derive(Drop)]
pub struct HandlerFacts {
    /// For each procedure whether it is resumable.
    pub resumable: Sequence<bool>,
    pub marks: Marks,
    pub issues: Issues,
}

/// Which classes are interfaces of others. Both lists are empty as long as Implements is a statement that isn't translated.
#[derive(Drop)]
pub struct InterfaceFacts {
    pub interfaces: Sequence<ClassId>,
    /// A procedure of an interface, a class that implements it, and the class's procedure that stands for it.
    pub parts: Sequence<(ProcId, ClassId, ProcId)>,
    pub issues: Issues,
}

/// What all analyses find.
#[derive(Drop)]
pub struct AllFacts {
    pub objects: ObjectFacts,
    pub refs: RefFacts,
    pub arrays: ArrayFacts,
    pub fixed: FixedFacts,
    pub handlers: HandlerFacts,
}
