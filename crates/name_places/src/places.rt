//! The words of rows and the places of first rows.
ghost use Rattle.std.specs.Prelude.{◌≡◌, ℕ, List, Some, None, cond, position, IfOk, OnOk, ◌&&◌, ◌==◌, nat_eq};
ghost use Rattle.std.specs.Cmp.Lexicographic.{pointwise};
ghost use Rattle.indexmap.specs.IndexMap.{get};
ghost use Rattle.name_places.specs.Places.{first_of, has_word, is_at, is_home, is_housed, is_same_pair, keyed, noted, place_of_word, placed};

use indexmap::IndexMap;
use std::alloc::Global;
use up_base::{Mem, Name};

/// A name, and the number of its home. A row without a home is never found.
#[derive(Clone, Copy)]
pub struct Row<'a> {
    pub home: Option<u32>,
    pub name: &'a Name,
}

/// The place of the first of some rows for each home and name. It holds no reference to the rows.
#[derive(Drop)]
pub struct NamePlaces {
    // the words in small letters, each with its number
    words: IndexMap<Vec<u8>, usize>,
    // the place of the first row with a home and a word's number
    places: IndexMap<(u32, usize), usize>,
}

impl NamePlaces {
    /// The place, from 0, of the first row with a home and a name, which is given in small letters.
    pub fn place(&self, home: u32, name: &[u8]) -> Option<usize>
        ensures { result ≡ placed self.now home name.now }
    {
        place_of_word(&self.places, home, word_of(&self.words, name))
    }
}

fn word_of(words: &IndexMap<Vec<u8>, usize>, name: &[u8]) -> Option<usize>
    ensures { result ≡ noted words.now name.now }
{
    words.get(name).copied()
}

fn place_of_word(
    places: &IndexMap<(u32, usize), usize>,
    home: u32,
    word: Option<usize>,
) -> Option<usize>
    ensures { result ≡ place_of_word places.now home word }
{
    match word {
        Some(word) => places.get(&(home, word)).copied(),
        None => None,
    }
}

/// The table of these rows. Names that differ in case alone are one.
pub fn places_of(alloc: Global, rows: &[Row]) -> Result<NamePlaces, Mem>
    ensures { IfOk result (λ t. (h : ℕ) (key : List ℕ) → placed t h key ≡ position (λ r. is_at h key (keyed r)) rows.now) }
{
    let words = words_of(alloc, rows)?;
    let places = word_places(alloc, &words, rows)?;
    Ok(NamePlaces { words, places })
}

// The number of each word.
fn words_of(alloc: Global, rows: &[Row]) -> Result<IndexMap<Vec<u8>, usize>, Mem>
    ensures { IfOk result (λ m. (key : List ℕ) → noted m key ≡ position (λ r. is_housed key (keyed r)) rows.now) }
{
    let mut words = IndexMap::new(alloc);
    for (i, row) in rows.iter().enumerate() {
        note_row(alloc, &mut words, row, i)?;
    }
    Ok(words)
}

// Notes the place of a row that has a home, where its word has none yet.
fn note_row(
    alloc: Global,
    words: &mut IndexMap<Vec<u8>, usize>,
    row: &Row,
    i: usize,
) -> Result<(), Mem>
    ensures { OnOk result ((key : List ℕ) → noted words.new key ≡ first_of (noted words.old key) (cond (is_housed key (keyed row.now)) (Some i) None)) }
{
    if row.home.is_none() {
        return Ok(());
    }
    Ok(note_word(alloc, words, row.name.lower_bytes(), i)?)
}

// Notes the place of a word, where it has none yet.
fn note_word(
    alloc: Global,
    words: &mut IndexMap<Vec<u8>, usize>,
    word: &[u8],
    i: usize,
) -> Result<(), Mem>
    ensures { OnOk result ((key : List ℕ) → noted words.new key ≡ first_of (noted words.old key) (cond (pointwise nat_eq word.now key) (Some i) None)) }
{
    if words.get(word).is_none() {
        words.insert(Vec::from_slice(alloc, word)?, i)?;
    }
    Ok(())
}

// The place of the first row for each home and word.
fn word_places(
    alloc: Global,
    words: &IndexMap<Vec<u8>, usize>,
    rows: &[Row],
) -> Result<IndexMap<(u32, usize), usize>, Mem>
    ensures { IfOk result (λ m. (h w : ℕ) → get is_same_pair m (h, w) ≡ position (λ r. has_word words.now h w (keyed r)) rows.now) }
{
    let mut places = IndexMap::new(alloc);
    for (i, row) in rows.iter().enumerate() {
        note_place(
            &mut places,
            row.home,
            word_of(words, row.name.lower_bytes()),
            i,
        )?;
    }
    Ok(places)
}

// Notes the place of a row with a home and a word, where they have none yet.
fn note_place(
    places: &mut IndexMap<(u32, usize), usize>,
    home: Option<u32>,
    word: Option<usize>,
    i: usize,
) -> Result<(), Mem>
    ensures { OnOk result ((h w : ℕ) → get is_same_pair places.new (h, w) ≡ first_of (get is_same_pair places.old (h, w)) (cond (is_home h home && is_home w word) (Some i) None)) }
{
    match home {
        Some(home) => Ok(note_homed(places, home, word, i)?),
        None => Ok(()),
    }
}

fn note_homed(
    places: &mut IndexMap<(u32, usize), usize>,
    home: u32,
    word: Option<usize>,
    i: usize,
) -> Result<(), Mem>
    ensures { OnOk result ((h w : ℕ) → get is_same_pair places.new (h, w) ≡ first_of (get is_same_pair places.old (h, w)) (cond ((home == h) && is_home w word) (Some i) None)) }
{
    match word {
        Some(word) => Ok(note_pair(places, home, word, i)?),
        None => Ok(()),
    }
}

fn note_pair(
    places: &mut IndexMap<(u32, usize), usize>,
    home: u32,
    word: usize,
    i: usize,
) -> Result<(), Mem>
    ensures { OnOk result ((h w : ℕ) → get is_same_pair places.new (h, w) ≡ first_of (get is_same_pair places.old (h, w)) (cond ((home == h) && (word == w)) (Some i) None)) }
{
    if places.get(&(home, word)).is_none() {
        places.insert((home, word), i)?;
    }
    Ok(())
}
