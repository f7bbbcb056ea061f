//! Laws of reading: what was written within a line is read back.
ghost use Rattle.net_exprs.specs.Laws.{ArgumentsAreRead, ArgumentsStayWithinLine, ArgumentsWithRoomAreRead, ExpressionsAreRead, ExpressionsStayWithinLine, ExpressionsWithRoomAreRead, LabelsAreRead, LabelsStayWithinLine, NamesAreRead, NamesStayWithinLine, NestedArgumentsAreRead, NestedExpressionsAreRead, PathsAreRead, RanksAreRead, ReadArgumentsAreShallow, ReadExpressionsAreShallow, ShallowArgumentsAreRead, ShallowExpressionsAreRead, TypesAreRead, TypesStayWithinLine};

/// A law: a name is read back.
pub fn names_are_read()
    ensures { NamesAreRead }
{}

/// A law: a path is read back.
pub fn paths_are_read()
    ensures { PathsAreRead }
{}

/// A law: a label is read back.
pub fn labels_are_read()
    ensures { LabelsAreRead }
{}

/// A law: the parentheses of an array are read back.
pub fn ranks_are_read()
    ensures { RanksAreRead }
{}

/// A law: a type is read back.
pub fn types_are_read()
    ensures { TypesAreRead }
{}

/// A law: an expression is read back.
pub fn expressions_are_read()
    ensures { ExpressionsAreRead }
{}

/// A law: arguments are read back.
pub fn arguments_are_read()
    ensures { ArgumentsAreRead }
{}

/// A law: an expression is read back wherever there is room for its depth, with any number of suffixes.
pub fn expressions_with_room_are_read()
    ensures { ExpressionsWithRoomAreRead }
{}

/// A law: arguments are read back wherever there is room for their depth, with any number of suffixes.
pub fn arguments_with_room_are_read()
    ensures { ArgumentsWithRoomAreRead }
{}

/// A law: an expression is read back within the room of its depth.
pub fn nested_expressions_are_read()
    ensures { NestedExpressionsAreRead }
{}

/// A law: arguments are read back within the room of their depth.
pub fn nested_arguments_are_read()
    ensures { NestedArgumentsAreRead }
{}

/// A law: an expression that is no deeper than `read_expression` reads is read back.
pub fn shallow_expressions_are_read()
    ensures { ShallowExpressionsAreRead }
{}

/// A law: arguments that are no deeper than `read_arguments` reads are read back.
pub fn shallow_arguments_are_read()
    ensures { ShallowArgumentsAreRead }
{}

/// A law: an expression that was read is no deeper than the room that it was read in.
pub fn read_expressions_are_shallow()
    ensures { ReadExpressionsAreShallow }
{}

/// A law: none of the arguments that were read is deeper than the room that they were read in.
pub fn read_arguments_are_shallow()
    ensures { ReadArgumentsAreShallow }
{}

/// A law: a name stays within its line.
pub fn names_stay_within_line()
    ensures { NamesStayWithinLine }
{}

/// A law: a label stays within its line.
pub fn labels_stay_within_line()
    ensures { LabelsStayWithinLine }
{}

/// A law: a type stays within its line.
pub fn types_stay_within_line()
    ensures { TypesStayWithinLine }
{}

/// A law: an expression stays within its line.
pub fn expressions_stay_within_line()
    ensures { ExpressionsStayWithinLine }
{}

/// A law: arguments stay within their line.
pub fn arguments_stay_within_line()
    ensures { ArgumentsStayWithinLine }
{}
