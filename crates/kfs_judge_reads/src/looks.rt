//! A view with what was looked up in it last.
ghost use Rattle.std.specs.Prelude.{◌≡◌, ◌⊎◌, true, IfSome};
ghost use Rattle.std.specs.Option.{option_map};
ghost use Rattle.kfs_model.specs.Table.{get};
ghost use Rattle.kfs_model.specs.Tree.{target};
ghost use Rattle.kfs_types.specs.Views.{header_of};
ghost use Rattle.kfs_judge_reads.specs.View.{contents_of};
ghost use Rattle.kfs_judge_reads.specs.Recall.{Holds};
ghost use Rattle.kfs_judge_reads.specs.Looks.{HeadersAreRight, NamesAreRight};

use crate::draft::NameKey;
use crate::view::View;
use kfs_image_nodes::{Header, NameAt, Near};
use std::alloc::Allocator;

/// A view, and what it answered last: two headers and two names, which take no memory. Names are kept
/// where they stand in the log.
#[derive(Drop)]
pub struct Looks<'a, 'e, 's, A: Allocator> {
    pub view: &'a View<A>,
    nears: Nears,
    headers: Recall<u32, Option<Header>>,
    names: Recall<NameKey<'e, 's>, Option<u32>>,
    ghost headers_are_right: { HeadersAreRight view.now headers },
    ghost names_are_right: { NamesAreRight view.now names },
}

impl<'a, 'e, 's, A: Allocator + Copy> Looks<'a, 'e, 's, A> {
    /// Nothing was looked up yet.
    pub fn new(view: &'a View<A>) -> Looks<'a, 'e, 's, A>
        ensures { result.view.now ≡ view.now }
    {
        Looks {
            view,
            nears: Nears::at(view.near()),
            headers: Recall::none(),
            names: Recall::none(),
        }
    }

    /// The header of a node, or none.
    pub fn header(&mut self, number: u32) -> Option<Header>
        ensures same { self.new.view.now ≡ self.old.view.now }
        ensures header { option_map header_of result ≡ get (contents_of self.old.view.now).heads number }
    {
        if let Some(header) = self.headers.get(&number) {
            return header;
        }
        let header = self.view.header(number);
        self.headers.put(number, header);
        header
    }

    /// The number that a name leads to, or none.
    pub fn target(&mut self, key: &NameKey<'e, 's>) -> Option<u32>
        ensures same { self.new.view.now ≡ self.old.view.now }
        ensures target { result ≡ target (contents_of self.old.view.now).names key.now.0 key.now.1 }
    {
        if let Some(number) = self.names.get(key) {
            return number;
        }
        let number = look_up(self.view, &mut self.nears, key);
        self.names.put(key.again(), number);
        number
    }
}

/// The number that a name leads to in the view, or none.
fn look_up<A: Allocator + Copy>(
    view: &View<A>,
    nears: &mut Nears,
    key: &NameKey<'_, '_>,
) -> Option<u32>
    ensures { result ≡ target (contents_of view.now).names key.now.0 key.now.1 }
{
    nears.turn_to(key.dir());
    view.target_near(
        &mut nears.last,
        &NameAt::new(key.dir(), key.name().sought()),
    )
}

/// The last two questions, each with its answer. A judgement asks for few cells of its view, and for each
/// of them several times.
#[derive(Drop)]
pub struct Recall<K, V> {
    last: Option<(K, V)>,
    before: Option<(K, V)>,
}

impl<K: Eq + Drop, V: Copy> Recall<K, V> {
    /// No question was asked.
    pub fn none() -> Recall<K, V>
        ensures { (key : K) (value : V) → Holds result key value → ⊥ }
    {
        Recall {
            last: None,
            before: None,
        }
    }

    /// The answer to a question, if it is one of the last two.
    pub fn get(&self, key: &K) -> Option<V>
        ensures { IfSome result (λ value. (there : K) × (K.eq there key.now ≡ true) × Holds self.now there value) }
    {
        if let Some((there, value)) = &self.last {
            if there == key {
                return Some(*value);
            }
        }
        let (there, value) = self.before.as_ref()?;
        if there == key {
            return Some(*value);
        }
        None
    }

    /// The question was asked last, and this is its answer.
    pub fn put(&mut self, key: K, value: V)
        ensures { (k : K) (v : V) → Holds self.new k v → Holds self.old k v ⊎ ((k ≡ key) × (v ≡ value)) }
    {
        self.before = self.last.take();
        self.last = Some((key, value));
    }
}

/// The places behind the last names that were looked for. A log that moves a name looks into two
/// directories by turns, and each has its own place. A place is only a guess.
#[derive(Clone, Copy)]
pub struct Nears {
    dir: u32,
    /// The place in the directory of the last look.
    pub last: Near,
    /// The place in the directory before.
    before: Near,
}

impl Nears {
    /// Both looks begin at this place.
    pub fn at(near: Near) -> Nears {
        Nears {
            dir: 0,
            last: near,
            before: near,
        }
    }

    /// Before a look into this directory: `last` becomes its place.
    pub fn turn_to(&mut self, dir: u32) {
        if dir != self.dir {
            let last = self.last;
            self.last = self.before;
            self.before = last;
            self.dir = dir;
        }
    }
}
