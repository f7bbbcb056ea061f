//! Reads the lines of procedures, one after the other.
ghost use Rattle.std.specs.Prelude.{◌≡◌, ◌≤◌, ◌||◌, option_map, Some};
ghost use Rattle.net_reader.specs.FileLines.{text_of_line};
ghost use Rattle.net_reader.specs.DeclarationReader.{dim_at};
ghost use Rattle.net_reader.specs.LineReader.{line_at};
ghost use Rattle.net_reader.specs.ModuleReader as model;
ghost use Rattle.net_reader.specs.StateView.{body_of, grown_of};
ghost use Rattle.net_reader.specs.Steps.{Steps};
ghost use Rattle.net_reader.specs.Takings.{declares, dim_within, line_within};
ghost use Rattle.net_reader.specs.WordView.{word_of};

use crate::heads::close_at;
use crate::margins::text_of_line;
use crate::pieces::{closed_by, with_dim, with_line};
use crate::states::{Body, Grown};
use crate::taken::{take_dim, take_line, takes_close};
use crate::words::{Word, keyword_at};
use net_exprs::PhraseFail;
use net_tree::NetClose;
use std::alloc::Global;

#[tactic(auto, using(crate::proofs::Stopping::map_stops))]
fn dim_taken(alloc: Global, depth: usize, body: Body, line: &[u8]) -> Result<Grown, PhraseFail>
    requires { depth ≤ 2 }
    ensures { Steps grown_of (option_map (λ d. model.going (model.with_dim (body_of body) d)) (dim_within depth (body_of body) line.now (dim_at (text_of_line line.now)))) result }
{
    match take_dim(alloc, depth, &body, line) {
        Ok(dim) => Ok(Grown::Going(with_dim(body, dim)?)),
        Err(e) => Err(e),
    }
}

#[tactic(auto, using(crate::proofs::Stopping::map_stops))]
fn line_taken(alloc: Global, depth: usize, body: Body, line: &[u8]) -> Result<Grown, PhraseFail>
    requires { depth ≤ 2 }
    ensures { Steps grown_of (model.line_taken depth (body_of body) line.now) result }
{
    match take_line(alloc, depth, &body.blocks, line) {
        Ok(read) => Ok(Grown::Going(with_line(body, read)?)),
        Err(e) => Err(e),
    }
}

fn close_taken(
    alloc: Global,
    depth: usize,
    body: Body,
    line: &[u8],
    close: NetClose,
) -> Result<Grown, PhraseFail>
    requires { depth ≤ 2 }
    ensures { Steps grown_of (model.close_taken depth (body_of body) line.now close) result }
{
    if !takes_close(alloc, depth, &body, line, close)? {
        return Err(PhraseFail::NotNet);
    }
    Ok(Grown::Closed(closed_by(body, close)))
}

// Whether a word begins a declaration.
fn declares(word: Option<Word>) -> bool
    ensures { result ≡ declares (option_map word_of word) }
{
    match word {
        Some(Word::Dim) => true,
        Some(Word::Static) => true,
        Some(Word::Const) => true,
        _ => false,
    }
}

#[tactic(auto, using(crate::proofs::DimWords::dim_alone, crate::proofs::DimWords::line_alone))]
fn grown_by_line(alloc: Global, depth: usize, body: Body, line: &[u8]) -> Result<Grown, PhraseFail>
    requires { depth ≤ 2 }
    ensures { Steps grown_of (model.grown_by_line depth (body_of body) (dim_at (text_of_line line.now)) line.now) result }
{
    if declares(keyword_at(text_of_line(line))) {
        return dim_taken(alloc, depth, body, line);
    }
    line_taken(alloc, depth, body, line)
}

/// What a line makes of a procedure whose head stands at a depth.
pub(crate) fn grown(
    alloc: Global,
    depth: usize,
    body: Body,
    line: &[u8],
) -> Result<Grown, PhraseFail>
    requires { depth ≤ 2 }
    ensures { Steps grown_of (model.grown depth (body_of body) line.now) result }
{
    match close_at(text_of_line(line)) {
        Some(close) => close_taken(alloc, depth, body, line, close),
        None => grown_by_line(alloc, depth, body, line),
    }
}
