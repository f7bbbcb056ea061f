//! The laws.
ghost use Rattle.std.specs.Prelude.{ℕ};
ghost use Rattle.vb6_run.specs.Store.{SourceFrame};
ghost use Rattle.run_matches.specs.Frames.{frame_pledge};
ghost use Rattle.run_matches.specs.Maps.{World};
ghost use Rattle.run_matches.specs.Upgrades.{Upgrade};
ghost use Rattle.run_statements.specs.Objects.{ClassesAreWritten};
ghost use Rattle.run_statements.specs.Properties.{PropertiesAreSetBy, SettersAgreeBy};
ghost use Rattle.expression_laws.specs.Statements.{ArraysAgreeBy, AutosAreReachedBy, ElementsAgreeBy, FormedExpressionsAgreeBy, FormedScalarsAgreeBy, GroupsAgreeBy, IndexesAgreeBy, MembersAgreeBy, ObjectsAgreeBy, ParametersAreSound, PlacesAgreeBy};

/// A law: under the pledge of a frame, an expression that is covered and well formed gives a value that matches what is written
/// for it.
pub fn expressions_agree()
    ensures { (U : Upgrade) (sound : ParametersAreSound U) (classes : ClassesAreWritten U) (p : ℕ) (w : World) (f : SourceFrame)
        → FormedExpressionsAgreeBy U (frame_pledge U p w f) }
{}

/// A law: so it does as a scalar.
pub fn scalars_agree()
    ensures { (U : Upgrade) (sound : ParametersAreSound U) (classes : ClassesAreWritten U) (p : ℕ) (w : World) (f : SourceFrame)
        → FormedScalarsAgreeBy U (frame_pledge U p w f) }
{}

/// A law: an array and the indexes of an element are the same on both sides, and the indexes count from the lower bounds of the array.
pub fn indexes_agree()
    ensures { (U : Upgrade) (sound : ParametersAreSound U) (classes : ClassesAreWritten U) (p : ℕ) (w : World) (f : SourceFrame)
        → IndexesAgreeBy U (frame_pledge U p w f) }
{}

/// A law: so it is with the element, before the last check of its index.
pub fn elements_agree()
    ensures { (U : Upgrade) (sound : ParametersAreSound U) (classes : ClassesAreWritten U) (p : ℕ) (w : World) (f : SourceFrame)
        → ElementsAgreeBy U (frame_pledge U p w f) }
{}

/// A law: a covered array variable has an address that is the image of the source's.
pub fn arrays_agree()
    ensures { (U : Upgrade) (p : ℕ) (w : World) (f : SourceFrame) → ArraysAgreeBy U (frame_pledge U p w f) }
{}

/// A law: a covered place, a variable of a user type or of a class or a field of a user type, has an address that is the image of the
/// source's.
pub fn places_agree()
    ensures { (U : Upgrade) (p : ℕ) (w : World) (f : SourceFrame) → PlacesAgreeBy U (frame_pledge U p w f) }
{}

/// A law: an As New variable that is set has an address that is the image of the source's; no object is made for it there.
pub fn autos_are_reached()
    ensures { (U : Upgrade) (p : ℕ) (w : World) (f : SourceFrame) → AutosAreReachedBy U (frame_pledge U p w f) }
{}

/// A law: a variable of an object that is kept, by a variable or by a variable of such an object, of Me, or of one that a call without
/// arguments gives, has parts that are the images of the source's; whether there is an object is seen behind them. An As New variable has
/// made its object then.
pub fn members_agree()
    ensures { (U : Upgrade) (classes : ClassesAreWritten U) (p : ℕ) (w : World) (f : SourceFrame) → MembersAgreeBy U (frame_pledge U p w f) }
{}

/// A law: such an object that is written by itself has an address of its class, at which what stands for it is looked up.
pub fn objects_agree()
    ensures { (U : Upgrade) (classes : ClassesAreWritten U) (p : ℕ) (w : World) (f : SourceFrame) → ObjectsAgreeBy U (frame_pledge U p w f) }
{}

/// A law: a user type or an object as a value, of a place, of an As New variable, of a variable of an object, Me, a new object, what a
/// Function gives or Nothing, matches what is written for it.
pub fn groups_agree()
    ensures { (U : Upgrade) (sound : ParametersAreSound U) (classes : ClassesAreWritten U) (p : ℕ) (w : World) (f : SourceFrame)
        → GroupsAgreeBy U (frame_pledge U p w f) }
{}

/// A law: a property that takes a value is reached with its object and its indexes, where it isn't seen yet whether there is an object. It
/// needn't be called under the promise of that.
pub fn setters_agree()
    ensures { (U : Upgrade) (sound : ParametersAreSound U) (classes : ClassesAreWritten U) (p q : ℕ) (w u : World) (f g : SourceFrame)
        → SettersAgreeBy U (frame_pledge U p w f) (frame_pledge U q u g) }
{}

/// A law: its Let or Set is then called with them and the value, for an object where there is one; without one both sides raise 91. Where
/// there are indexes, the value was evaluated behind them and changed nothing.
pub fn properties_are_set()
    ensures { (U : Upgrade) (sound : ParametersAreSound U) (p : ℕ) (w : World) (f : SourceFrame)
        → PropertiesAreSetBy U (frame_pledge U p w f) }
{}
