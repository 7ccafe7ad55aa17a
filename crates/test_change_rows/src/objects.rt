//! An object store whose content is written in a row, and a check of names.

ghost use Rattle.std.specs.Prelude.{◌≡◌, ◌==◌, ◌&&◌, not, Some, None, if◌then◌else◌};
ghost use Rattle.std.specs.Prelude.{slice_get, slice_index_or};
ghost use Rattle.gix_index.specs.Id.{id_bytes};
ghost use Rattle.test_change_rows.specs.Store.{found_at};

use gix_index::hash::ObjectId;
use gix_index::init::ComponentCheck;
use gix_index::object::{self, Find, Kind, find};
use std::alloc::Global;
use test_row_kit::words::{items_of, number_of, text_of};
use test_row_kit::{Fault, Words};

/// What a store has for an id.
#[derive(Drop)]
pub enum Object {
    /// There is no object.
    Absent,
    /// Reading the object fails for lack of memory.
    Unread,
    /// Reading the object fails with an error of the store, which has this number.
    Fault(u32),
    /// An object with its bytes.
    Whole(Kind, Vec<u8>),
}

/// A store that finds an object by the first byte of its id, which is an index into `objects`.
#[derive(Drop)]
pub struct Store {
    objects: Vec<Object>,
}

/// Returns the first byte of an id.
fn first_of(id: &ObjectId) -> u8
    ensures { result ≡ slice_index_or (id_bytes id.now) 0 0 }
{
    match id.as_bytes().first() {
        Some(byte) => *byte,
        None => 0,
    }
}

impl Find for Store {
    ghost found = { λ store id.
        found_at (slice_get store.objects.items (slice_index_or (id_bytes id) 0 0)) };

    fn find(&self, id: &ObjectId, buf: &mut Vec<u8>) -> Result<Option<object::Kind>, find::Error> {
        buf.clear();
        match self.objects.get(first_of(id) as usize) {
            None | Some(Object::Absent) => Ok(None),
            Some(Object::Unread) => Err(find::Error::Memory),
            Some(Object::Fault(number)) => Err(find::Error::Fault(*number)),
            Some(Object::Whole(kind, bytes)) => match buf.extend_from_slice(bytes.as_slice()) {
                Ok(()) => Ok(Some(*kind)),
                Err(_) => Err(find::Error::Memory),
            },
        }
    }
}

/// Takes a list of objects and returns their store. An item has the first byte of the id, what is there, and its bytes
/// or its number.
pub fn store_of(words: &mut Words<'_>) -> Result<Store, Fault> {
    let alloc = words.alloc();
    let mut objects = Vec::new(alloc);
    objects.resize_with(256, || Object::Absent)?;
    for item in &items_of(alloc, words.list()?)? {
        put(alloc, &mut objects, item)?;
    }
    Ok(Store { objects })
}

/// Adds the object of one item to the list.
fn put(alloc: Global, objects: &mut Vec<Object>, item: &str) -> Result<(), Fault> {
    let mut fields = item.split(':');
    let Ok(place) = u8::from_str_radix(fields.next().unwrap_or(""), 16) else {
        return Err(Fault::Wrong("the first byte of an id"));
    };
    let what = fields.next().unwrap_or("");
    let object = object_of(alloc, what, fields.next().unwrap_or(""))?;
    let Some(slot) = objects.get_mut(place as usize) else {
        return Err(Fault::Wrong("the first byte of an id"));
    };
    *slot = object;
    Ok(())
}

fn object_of(alloc: Global, what: &str, field: &str) -> Result<Object, Fault> {
    let kind = match what {
        "tree" => Kind::Tree,
        "blob" => Kind::Blob,
        "commit" => Kind::Commit,
        "tag" => Kind::Tag,
        "fault" => return Ok(Object::Fault(number_of(field)?)),
        "memory" => return Ok(Object::Unread),
        _ => return Err(Fault::Wrong("an object")),
    };
    Ok(Object::Whole(kind, text_of(alloc, field)?))
}

/// Rejects names that begin with the byte `first` with the error `number`, either those of symbolic links or all
/// others.
#[derive(Clone, Copy)]
pub struct Refuses {
    first: u8,
    symlink: bool,
    number: u32,
    is_any: bool,
}

impl ComponentCheck for Refuses {
    ghost refusal = { λ check name symlink.
        if check.is_any && slice_index_or name 0 0 == check.first
        && (if symlink then check.symlink else not check.symlink)
        then Some check.number else None };

    fn check(&self, name: &[u8], symlink: bool) -> Result<(), u32> {
        let first = match name.first() {
            Some(byte) => *byte,
            None => 0,
        };
        if self.is_any && first == self.first && symlink == self.symlink {
            return Err(self.number);
        }
        Ok(())
    }
}

/// Takes an optional check of names: text whose first byte is rejected, `link` or `name`, and a number. Without it, all
/// names are accepted.
pub fn check_of(words: &mut Words<'_>) -> Result<Refuses, Fault> {
    let Some(word) = words.optional() else {
        return Ok(Refuses {
            first: 0,
            symlink: false,
            number: 0,
            is_any: false,
        });
    };
    let mut fields = word.split(':');
    let text = text_of(words.alloc(), fields.next().unwrap_or(""))?;
    let symlink = match fields.next() {
        Some("link") => true,
        Some("name") => false,
        _ => return Err(Fault::Wrong("link or name")),
    };
    Ok(Refuses {
        first: text.first().copied().unwrap_or(0),
        symlink,
        number: number_of(fields.next().unwrap_or(""))?,
        is_any: true,
    })
}
