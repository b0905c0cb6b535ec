ghost use Rattle.std.specs.Prelude.{◌≡◌, ◌<◌, ◌-◌, ◌^◌, ◌++◌, ◌∷◌, []};
ghost use Rattle.std.specs.Prelude.{length, map, string_bytes};
ghost use Rattle.std.specs.Prelude.{Some, slice_get, slice_index_or, IfOk, OnOk, OnErr};
ghost use Rattle.std.specs.BTreeMap.{get_by_text};
ghost use Rattle.text_table.specs.Filing.{IsStored, hash_of};
ghost use Rattle.text_table.specs.Tables.{IsAbsent, with_text};

use crate::filing::text_hash;
use crate::index::TextIndex;
use sheet_refs::Memory;
use std::alloc::Global;
use std::marker::Model;

/// A table of texts: distinct texts, each at its place, counted from 0. Each text is kept once, and those whose bucket
/// is full once more.
#[derive(Drop)]
pub struct TextTable {
    texts: Vec<String>,
    index: TextIndex,
    alloc: Global,
}

impl Model for TextTable {
    ghost use Rattle.std.specs.Prelude.{ℕ, List, map, string_bytes};
    ghost use Rattle.std.specs.BTreeMap.{get_by_text};
    ghost use Rattle.text_table.specs.Filing.{IsStored};

    ghost Value = { List (List ℕ) };

    ghost view = { λ t. map string_bytes t.texts.items };

    ghost invariant = { λ t. IsStored (map (λ bucket. bucket.items) t.index.buckets.items)
        (get_by_text t.index.beside) (map string_bytes t.texts.items) };
}

// Adds a text that isn't there yet.
fn add(
    alloc: Global,
    texts: &mut Vec<String>,
    index: &mut TextIndex,
    text: &str,
    hash: u64,
) -> Result<u32, Memory>
    requires hash { hash ≡ hash_of text.now }
    requires room { length texts.old.items < 2 ^ 32 - 1 }
    requires absent { IsAbsent (map string_bytes texts.old.items) text.now }
    requires some { 0 < length index.old.buckets.items }
    requires stored { IsStored (map (λ bucket. bucket.items) index.old.buckets.items)
        (get_by_text index.old.beside) (map string_bytes texts.old.items) }
    ensures stored { IsStored (map (λ bucket. bucket.items) index.new.buckets.items)
        (get_by_text index.new.beside) (map string_bytes texts.new.items) }
    ensures place { IfOk result (λ place. place ≡ length texts.old.items) }
    ensures added { OnOk result (map string_bytes texts.new.items
        ≡ map string_bytes texts.old.items ++ text.now ∷ []) }
    ensures refused { OnErr result (map string_bytes texts.new.items
        ≡ map string_bytes texts.old.items) }
{
    let copy = String::from_str(alloc, text)?;
    texts.reserve(1)?;
    let place = texts.len() as u32;
    index.file(alloc, text, hash, place)?;
    texts.push_reserved(copy);
    Ok(place)
}

impl TextTable {
    /// A table without texts. It takes no memory.
    pub fn new(alloc: Global) -> TextTable
        ensures { result ≡ [] }
    {
        TextTable {
            texts: Vec::new(alloc),
            index: TextIndex::new(alloc),
            alloc,
        }
    }

    /// The number of texts.
    pub fn length(&self) -> u32
        ensures length { result ≡ length self.now }
    {
        self.texts.len() as u32
    }

    /// The text at a place.
    pub fn text(&self, place: u32) -> &str
        requires { place < length self.now }
        ensures { result.now ≡ slice_index_or self.now place [] }
    {
        self.texts[place as usize].as_str()
    }

    /// The place of a text, which is added at the end where it isn't there. It takes time in proportion to the length
    /// of the text, times the logarithm of the number of texts where it is in a full bucket; a text that is added makes
    /// the buckets anew where there have become twice as many. After a refusal the table is as before.
    pub fn intern(&mut self, text: &str) -> Result<u32, Memory>
        requires { length self.old < 2 ^ 32 - 1 }
        ensures place { IfOk result (λ place. slice_get self.new place ≡ Some text.now) }
        ensures table { OnOk result (self.new ≡ with_text self.old text.now) }
        ensures refused { OnErr result (self.new ≡ self.old) }
    {
        let hash = text_hash(text);
        if let Some(place) = self.index.find(&self.texts, text, hash) {
            return Ok(place);
        }
        self.index.make_room(self.alloc, &self.texts)?;
        let place = add(self.alloc, &mut self.texts, &mut self.index, text, hash)?;
        Ok(place)
    }

    /// An equal table. It takes time and memory in proportion to the texts, as many searches as there are texts.
    pub fn copy(&self) -> Result<TextTable, Memory>
        ensures { IfOk result (λ table. table ≡ self.now) }
    {
        let texts = self.texts.clone()?;
        let index = TextIndex::of(self.alloc, &texts, self.index.buckets.len().max(1))?;
        Ok(TextTable {
            texts,
            index,
            alloc: self.alloc,
        })
    }
}
