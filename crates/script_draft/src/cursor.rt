//! A place in a tree, from which it is read piece by piece.
//!
//! Contracts see it as the pieces that are left. What they come to (the trees that are left of the list that it stands in, and those
//! of the lists around it) are functions of them in specs/Ahead.

ghost use Rattle.std.specs.Prelude.{◌≡◌, ◌<◌, ◌^◌, option_map};
ghost use Rattle.script_tree.specs.Pieces.{piece_of};
ghost use Rattle.script_draft.specs.Levels as levels;
ghost use Rattle.script_draft.specs.Ahead.{place_in, begins_tree, open_in, word_in, text_in, number_in};
ghost use Rattle.script_draft.specs.Taken.{word_of, text_of, number_of};

use script_forms::ScriptFault;
use script_tree::TreeNode as Piece;
use std::marker::Model;

/// A word and its place; or the place of a list and the word that it begins with.
#[derive(Clone, Copy)]
pub struct Word<'t> {
    /// The offset in the input.
    pub at: u32,
    /// Its bytes.
    pub word: &'t [u8],
}

/// A text and its place.
#[derive(Clone, Copy)]
pub struct Text<'t> {
    /// The offset in the input.
    pub at: u32,
    /// Its bytes.
    pub text: &'t [u8],
}

/// A number and its place.
#[derive(Clone, Copy)]
pub struct Number {
    /// The offset in the input.
    pub at: u32,
    /// The value.
    pub number: i64,
}

/// The pieces of a tree that are left to read.
#[derive(Drop)]
pub struct Cursor<'t> {
    pieces: &'t [Piece],
}

impl<'t> Model for Cursor<'t> {
    ghost use Rattle.std.specs.Prelude.{List, map};
    ghost use Rattle.script_tree.specs.Pieces.{Piece, piece_of};
    ghost use Rattle.script_tree.specs.TreeCode.{piece_code};
    ghost use Rattle.std.specs.Coded.{coded_list};

    ghost Value = { List Piece };

    ghost coded = { coded_list piece_code };

    ghost view = { λ inside. map piece_of inside.pieces.now };
}

/// The place of a piece; 0 of the end of a list.
fn place_of(piece: &Piece) -> u32
    ensures { result ≡ place_in (piece_of piece.now) }
{
    match piece {
        Piece::Word { at, .. } => *at,
        Piece::Number { at, .. } => *at,
        Piece::Text { at, .. } => *at,
        Piece::Open { at } => *at,
        Piece::Close => 0,
    }
}

/// Whether a tree begins with a piece.
fn begins_tree(piece: &Piece) -> bool
    ensures { result ≡ begins_tree (piece_of piece.now) }
{
    !matches!(piece, Piece::Close)
}

/// The place where a list opens.
fn as_open(piece: &Piece) -> Option<u32>
    ensures { result ≡ open_in (piece_of piece.now) }
{
    match piece {
        Piece::Open { at } => Some(*at),
        _ => None,
    }
}

/// The word that a piece is.
fn as_word(piece: &Piece) -> Option<Word>
    ensures { option_map word_of result ≡ word_in (piece_of piece.now) }
{
    match piece {
        Piece::Word { at, word } => Some(Word { at: *at, word }),
        _ => None,
    }
}

/// The text that a piece is.
fn as_text(piece: &Piece) -> Option<Text>
    ensures { option_map text_of result ≡ text_in (piece_of piece.now) }
{
    match piece {
        Piece::Text { at, text } => Some(Text { at: *at, text }),
        _ => None,
    }
}

/// The number that a piece is.
fn as_number(piece: &Piece) -> Option<Number>
    ensures { option_map number_of result ≡ number_in (piece_of piece.now) }
{
    match piece {
        Piece::Number { at, number } => Some(Number {
            at: *at,
            number: *number,
        }),
        _ => None,
    }
}

/// How many lists are open behind a piece.
fn lists_behind(lists: usize, piece: &Piece) -> usize
    requires { lists < 2 ^ 63 }
    ensures { result ≡ levels.lists_behind lists (piece_of piece.now) }
{
    match piece {
        Piece::Open { .. } => lists + 1,
        Piece::Close => lists.saturating_sub(1),
        _ => lists,
    }
}

impl<'t> Cursor<'t> {
    ghost use Rattle.std.specs.Prelude.{◌≡◌, ◌≤◌, ◌∷◌, [], map, min, length, true, false, option_map, IfOk};
    ghost use Rattle.spec_script.specs.Trees.{place_of};
    ghost use Rattle.spec_script.specs.Forms.{are_texts};
    ghost use Rattle.script_tree.specs.Pieces.{piece_of};
    ghost use Rattle.script_draft.specs.Ahead.{ahead, tree_count, behind, front, has_tree, tree_ahead, word_at, text_at, number_at, list_at, form_at, IsPast, IsBehind};
    ghost use Rattle.script_draft.specs.Taken.{seen, word_of, text_of, number_of, TakesWord, TakesText, TakesNumber, Opens, Enters};

    /// At the first of these pieces.
    pub fn new(pieces: &'t [Piece]) -> Cursor<'t>
        ensures { result ≡ map piece_of pieces.now }
    {
        Cursor { pieces }
    }

    /// Another at the same place.
    pub fn again(&self) -> Cursor<'t>
        ensures { result ≡ self.now }
    {
        Cursor {
            pieces: self.pieces,
        }
    }

    /// Passes the next piece, if there is one.
    pub fn pass(&mut self)
        ensures { self.new ≡ behind self.old }
    {
        if let Some((_, rest)) = self.pieces.split_first() {
            self.pieces = rest;
        }
    }

    /// The next piece.
    fn first(&self) -> Option<&'t Piece>
        ensures { option_map seen result ≡ front self.now }
    {
        self.pieces.first()
    }

    /// The piece behind the next.
    fn second(&self) -> Option<&'t Piece>
        ensures { option_map seen result ≡ front (behind self.now) }
    {
        self.pieces.get(1)
    }

    /// Whether a tree comes next, and no end.
    pub fn has_tree(&self) -> bool
        ensures { result ≡ has_tree self.now }
    {
        match self.first() {
            Some(piece) => begins_tree(piece),
            None => false,
        }
    }

    /// The place of the tree that comes next; 0 where none does.
    #[tactic(auto, using(crate::proofs::Cursors::place, crate::proofs::Cursors::no_place))]
    pub fn place(&self) -> u32
        ensures { result ≡ place_of (tree_ahead self.now) }
    {
        match self.first() {
            Some(piece) => place_of(piece),
            None => 0,
        }
    }

    /// The word that comes next, if one does.
    #[tactic(auto, using(crate::proofs::Cursors::word_ahead, crate::proofs::Cursors::no_word_ahead))]
    pub fn word_ahead(&self) -> Option<Word<'t>>
        requires { has_tree self.now ≡ true }
        ensures { option_map word_of result ≡ word_at (tree_ahead self.now) }
    {
        match self.first() {
            Some(piece) => as_word(piece),
            None => None,
        }
    }

    /// The text that comes next, if one does.
    #[tactic(auto, using(crate::proofs::Cursors::text_ahead, crate::proofs::Cursors::no_text_ahead))]
    pub fn text_ahead(&self) -> Option<Text<'t>>
        ensures { option_map text_of result ≡ text_at (tree_ahead self.now) }
    {
        match self.first() {
            Some(piece) => as_text(piece),
            None => None,
        }
    }

    /// The number that comes next, if one does.
    #[tactic(auto, using(crate::proofs::Cursors::number_ahead, crate::proofs::Cursors::no_number_ahead))]
    pub fn number_ahead(&self) -> Option<Number>
        ensures { option_map number_of result ≡ number_at (tree_ahead self.now) }
    {
        match self.first() {
            Some(piece) => as_number(piece),
            None => None,
        }
    }

    /// The place of the list that comes next, if one does.
    #[tactic(auto, using(crate::proofs::Cursors::list_ahead, crate::proofs::Cursors::no_list_ahead))]
    pub fn list_ahead(&self) -> Option<u32>
        ensures { result ≡ list_at (tree_ahead self.now) }
    {
        match self.first() {
            Some(piece) => as_open(piece),
            None => None,
        }
    }

    /// The place of the list that comes next, and the word that it begins with, if such a list does.
    #[tactic(auto, using(crate::proofs::Cursors::no_form_ahead))]
    pub fn form_ahead(&self) -> Option<Word<'t>>
        ensures { option_map word_of result ≡ form_at (tree_ahead self.now) }
    {
        let at = self.list_ahead()?;
        let head = as_word(self.second()?)?;
        Some(Word {
            at,
            word: head.word,
        })
    }

    /// How many trees are left of the list, counted up to `most`.
    pub fn count(&self, most: usize) -> usize
        ensures { result ≡ min most (tree_count (ahead self.now)) }
    {
        let mut count = 0;
        let mut lists = 0;
        for piece in self.pieces {
            if lists == 0 {
                if count == most || !begins_tree(piece) {
                    return count;
                }
                count += 1;
            }
            lists = lists_behind(lists, piece);
        }
        count
    }

    /// Whether the trees that are left of the list are texts alone.
    pub fn are_texts(&self) -> bool
        ensures { result ≡ are_texts (ahead self.now) }
    {
        for piece in self.pieces {
            if !begins_tree(piece) {
                return true;
            }
            if as_text(piece).is_none() {
                return false;
            }
        }
        true
    }

    /// The end of the list, which is passed.
    pub fn close(&mut self)
        requires { has_tree self.old ≡ false }
        ensures { IsBehind self.old self.new }
    {
        self.pass();
    }

    /// The word that comes next.
    ///
    /// # Errors
    /// `Shape` where the tree that comes next is no word.
    pub fn word(&mut self) -> Result<Word<'t>, ScriptFault>
        requires { has_tree self.old ≡ true }
        ensures past { IfOk result (λ _. IsPast self.old self.new) }
        ensures word { TakesWord (tree_ahead self.old) result }
    {
        let Some(word) = self.word_ahead() else {
            return Err(ScriptFault::Shape(self.place()));
        };
        self.pass();
        Ok(word)
    }

    /// The text that comes next.
    ///
    /// # Errors
    /// `Shape` where the tree that comes next is no text.
    pub fn text(&mut self) -> Result<Text<'t>, ScriptFault>
        requires { has_tree self.old ≡ true }
        ensures past { IfOk result (λ _. IsPast self.old self.new) }
        ensures text { TakesText (tree_ahead self.old) result }
    {
        let Some(text) = self.text_ahead() else {
            return Err(ScriptFault::Shape(self.place()));
        };
        self.pass();
        Ok(text)
    }

    /// The number that comes next.
    ///
    /// # Errors
    /// `Shape` where the tree that comes next is no number.
    pub fn number(&mut self) -> Result<Number, ScriptFault>
        requires { has_tree self.old ≡ true }
        ensures past { IfOk result (λ _. IsPast self.old self.new) }
        ensures number { TakesNumber (tree_ahead self.old) result }
    {
        let Some(number) = self.number_ahead() else {
            return Err(ScriptFault::Shape(self.place()));
        };
        self.pass();
        Ok(number)
    }

    /// Goes into the list that comes next, and gives its place. Where no list comes, it stays.
    pub fn open(&mut self) -> Option<u32>
        ensures { Opens result self.old self.new }
    {
        let at = self.list_ahead()?;
        self.pass();
        Some(at)
    }

    /// Goes into the list that comes next, behind the word that it begins with. Where no such list comes, it stays.
    pub fn enter(&mut self) -> Option<Word<'t>>
        ensures { Enters result self.old self.new }
    {
        let head = self.form_ahead()?;
        self.pass();
        self.pass();
        Some(head)
    }
}
