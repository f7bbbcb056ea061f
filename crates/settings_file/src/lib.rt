//! The reading of a settings file: which target and which note it sets.
#![tactic(auto)]

mod settings;

pub use settings::{Settings, SettingsFail, read_settings};
