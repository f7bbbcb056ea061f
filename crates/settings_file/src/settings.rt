//! Settings, and the keys and values that set them.
ghost use Rattle.std.specs.Prelude.{◌≡◌, Some, None, IfOk, IsErrOf, option_map, string_bytes};
ghost use Rattle.toml.specs.View.{table_view, view};
ghost use Rattle.toml.specs.Data.{get_member};
ghost use Rattle.up_base.specs.Names.{is_printable};
ghost use Rattle.std.specs.List.{list_all};
ghost use Rattle.std.specs.BTreeMap.{keys};
ghost use Rattle.settings_file.specs.Settings.{settings_of, document_of, settings_in, has_settings_alone, is_setting, target_of, library_by, note_of, is_note};

use std::alloc::Global;
use toml::{Table, Value};
use up_base::{Bytes, Mem};

// The most characters of a note.
const NOTE_LIMIT: usize = 200;

/// What a settings file sets.
#[derive(Drop)]
pub struct Settings {
    /// Whether the target is a library, whatever the project says.
    pub library: bool,
    /// The comment at the head of each file.
    pub note: Option<Bytes>,
}

/// Why bytes give no settings.
#[derive(Clone, Copy, Debug, PartialEq, Eq)]
pub enum SettingsFail {
    /// They are not of the form of a settings file.
    NotSettings,
    /// Want of memory.
    Mem,
}

impl From<Mem> for SettingsFail {
    ghost use Rattle.std.specs.Prelude.{◌≡◌};
    ghost use Rattle.settings_file.specs.declared.settings.SettingsFail.TheVariants as fail;

    ghost from_gives = { λ _ e. e ≡ fail.Mem };

    fn from(_: Mem) -> SettingsFail {
        SettingsFail::Mem
    }
}

/// The settings of a file: a TOML document with no key other than `target`, which is "auto" or "library", and `note`, of at
/// most 200 printable ASCII characters. Where a key is absent the target is auto and there is no note.
///
/// # Errors
///
/// `NotSettings` where the bytes are no such document, or `Mem`.
pub fn read_settings(alloc: Global, bytes: &[u8]) -> Result<Settings, SettingsFail>
    ensures settings { IfOk result (λ s. settings_of bytes.now ≡ Some (record { library = s.library; note = s.note })) }
    ensures not_settings { IsErrOf result SettingsFail.NotSettings → settings_of bytes.now ≡ None }
{
    let table = table_of(alloc, bytes)?;
    Ok(settings_in(alloc, &table)?)
}

// The table of a document.
fn table_of(alloc: Global, bytes: &[u8]) -> Result<Table, SettingsFail>
    ensures table { IfOk result (λ table. document_of bytes.now ≡ Some (table_view table)) }
    ensures not_settings { IsErrOf result SettingsFail.NotSettings → document_of bytes.now ≡ None }
{
    match toml::table_from_slice(alloc, bytes) {
        Ok(table) => Ok(table),
        Err(error) => {
            if error.is_memory() {
                Err(SettingsFail::Mem)
            } else {
                Err(SettingsFail::NotSettings)
            }
        }
    }
}

// The settings that a table gives.
fn settings_in(alloc: Global, table: &Table) -> Result<Settings, SettingsFail>
    ensures settings { IfOk result (λ s. settings_in (table_view table.now) ≡ Some (record { library = s.library; note = s.note })) }
    ensures not_settings { IsErrOf result SettingsFail.NotSettings → settings_in (table_view table.now) ≡ None }
{
    if !has_settings_alone(table) {
        return Err(SettingsFail::NotSettings);
    }
    let library = target_of(value_at(table, "target"))?;
    let note = note_of(alloc, value_at(table, "note"))?;
    Ok(Settings { library, note })
}

// The value at a key.
fn value_at<'a>(table: &'a Table, key: &str) -> Option<&'a Value>
    ensures { option_map (λ v. view v.now) result ≡ get_member key.now (table_view table.now) }
{
    table.get(key)
}

// Whether no other key stands in the table.
fn has_settings_alone(table: &Table) -> bool
    ensures { result ≡ has_settings_alone (table_view table.now) }
{
    are_settings(table)
}

// Whether each key of the table may stand in a settings file.
fn are_settings(table: &Table) -> bool
    ensures { result ≡ list_all (λ key. is_setting (string_bytes key)) (keys table.now) }
{
    table.keys().all(|key| is_setting(key.as_str()))
}

// Whether a key may stand in a settings file.
fn is_setting(key: &str) -> bool
    ensures { result ≡ is_setting key.now }
{
    key == "target" || key == "note"
}

// What the value of `target` sets.
fn target_of(value: Option<&Value>) -> Result<bool, SettingsFail>
    ensures target { IfOk result (λ library. target_of (option_map (λ v. view v.now) value.entry) ≡ Some library) }
    ensures not_settings { IsErrOf result SettingsFail.NotSettings → target_of (option_map (λ v. view v.now) value.entry) ≡ None }
{
    let Some(value) = value else {
        return Ok(false);
    };
    let Some(word) = value.as_str() else {
        return Err(SettingsFail::NotSettings);
    };
    match library_by(word) {
        Some(library) => Ok(library),
        None => Err(SettingsFail::NotSettings),
    }
}

// Whether the word of a target names a library.
fn library_by(word: &str) -> Option<bool>
    ensures { result ≡ library_by word.now }
{
    match word {
        "auto" => Some(false),
        "library" => Some(true),
        _ => None,
    }
}

// What the value of `note` sets.
fn note_of(alloc: Global, value: Option<&Value>) -> Result<Option<Bytes>, SettingsFail>
    ensures note { IfOk result (λ note. note_of (option_map (λ v. view v.now) value.entry) ≡ Some note) }
    ensures not_settings { IsErrOf result SettingsFail.NotSettings → note_of (option_map (λ v. view v.now) value.entry) ≡ None }
{
    let Some(value) = value else {
        return Ok(None);
    };
    let Some(text) = value.as_str() else {
        return Err(SettingsFail::NotSettings);
    };
    if !is_note(text.as_bytes()) {
        return Err(SettingsFail::NotSettings);
    }
    Ok(Some(Bytes::from_slice(alloc, text.as_bytes())?))
}

// Whether a text can be a note.
fn is_note(text: &[u8]) -> bool
    ensures { result ≡ is_note text.now }
{
    text.len() <= NOTE_LIMIT && is_printable(text)
}

// Whether each byte is an ASCII character from 20 to 7E hex.
fn is_printable(text: &[u8]) -> bool
    ensures { result ≡ list_all is_printable text.now }
{
    text.iter().all(|c| 32 <= *c && *c <= 126)
}
