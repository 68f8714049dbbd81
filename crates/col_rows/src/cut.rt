// The columns of a script cut into chunks, which are no part of an answer.
use std::alloc::{AllocError, Global};

/// The words of a column's line in front of its slots: `col`, the name and the type.
const WORDS_IN_FRONT: usize = 3;

/// Where each column of a script is cut.
#[derive(Clone, Copy)]
pub enum Cut {
    /// Behind the slot of this number, counted from 0.
    Behind(usize),
    /// Behind each slot, so that each chunk has one row.
    Everywhere,
}

impl Cut {
    /// Whether a chunk ends in front of the slot.
    fn is_before(self, slot: usize) -> bool {
        match self {
            Cut::Behind(place) => slot == place.saturating_add(1),
            Cut::Everywhere => slot > 0,
        }
    }
}

/// Whether a piece of a line is a word other than the end of a chunk.
fn is_word(piece: &str) -> bool {
    !piece.is_empty() && piece != "|"
}

fn is_column(line: &str) -> bool {
    line.starts_with("col ")
}

/// How many slots the line of a column has.
fn slots_in(line: &str) -> usize {
    let mut words = 0usize;
    for piece in line.split(' ') {
        if is_word(piece) {
            words = words.saturating_add(1);
        }
    }
    words.saturating_sub(WORDS_IN_FRONT)
}

/// The most slots that a column of the script has.
pub fn most_slots(script: &str) -> usize {
    let mut most = 0;
    for line in script.split('\n') {
        if is_column(line) {
            most = most.max(slots_in(line));
        }
    }
    most
}

/// Adds the line of a column, cut.
fn push_column(text: &mut String, line: &str, cut: Cut) -> Result<(), AllocError> {
    let mut words = 0usize;
    for piece in line.split(' ') {
        if words > 0 {
            text.push(' ')?;
        }
        if is_word(piece) {
            if words >= WORDS_IN_FRONT && cut.is_before(words - WORDS_IN_FRONT) {
                text.push_str("| ")?;
            }
            words = words.saturating_add(1);
        }
        text.push_str(piece)?;
    }
    Ok(())
}

/// The script with its columns cut.
pub fn cut_script(alloc: Global, script: &str, cut: Cut) -> Result<String, AllocError> {
    let mut text = String::new(alloc);
    let mut is_first = true;
    for line in script.split('\n') {
        if !is_first {
            text.push('\n')?;
        }
        is_first = false;
        if is_column(line) {
            push_column(&mut text, line, cut)?;
        } else {
            text.push_str(line)?;
        }
    }
    Ok(text)
}
