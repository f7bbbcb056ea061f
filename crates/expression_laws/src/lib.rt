//! Covered expressions do the same as what is written for them.
#![tactic(auto)]

mod laws;

pub use laws::{
    arrays_agree, autos_are_reached, elements_agree, expressions_agree, groups_agree,
    indexes_agree, members_agree, objects_agree, places_agree, properties_are_set, scalars_agree,
    setters_agree,
};
