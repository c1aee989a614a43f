// The reader of a body: the lent bytes and its place (document 01: 'one reader that keeps the lent bytes and its place').
ghost use Rattle.std.specs.Prelude.{◌≡◌, ◌+◌, ◌≤◌, length, take, drop, IfNone};
ghost use Rattle.rules.specs.Basic.{is_empty};
ghost use Rattle.rules.specs.Number.{read_number};
ghost use Rattle.rules.specs.Request.{times, byte};
ghost use Rattle.number.specs.Meaning.{NumberAt};
ghost use Rattle.number.specs.Reader.{rest_of, ReadOn, PassedOn};

use crate::{Number, read, skip};
use table::slices::copy;

#[derive(Clone, Copy)]
pub struct Reader<'a> {
    pub body: &'a [u8],
    pub at: usize,
}

impl<'a> Reader<'a> {
    pub fn new(body: &'a [u8], at: usize) -> Reader<'a>
        ensures { (result.body ≡ body.entry) × (result.at ≡ at) }
    {
        Reader { body, at }
    }

    // A number of a field whose largest value is the limit.
    pub fn number(&mut self, limit: u64) -> Option<u64>
        ensures read { ReadOn (read_number limit) limit self.old self.new result }
        ensures stays { IfNone result (self.new ≡ self.old) }
    {
        let Number { value, next } = number_at(self.body, self.at, limit)?;
        self.at = next;
        Some(value)
    }

    // Past count numbers of a limit.
    pub fn numbers(&mut self, count: u64, limit: u64) -> Option<()>
        ensures passed { PassedOn (times count (read_number limit)) self.old self.new result }
        ensures stays { IfNone result (self.new ≡ self.old) }
    {
        self.at = skip(self.body, self.at, count, limit)?;
        Some(())
    }

    // Past count bytes of any value.
    pub fn bytes(&mut self, count: u64) -> Option<()>
        ensures passed { PassedOn (times count byte) self.old self.new result }
        ensures stays { IfNone result (self.new ≡ self.old) }
    {
        let left = self.body.len().saturating_sub(self.at) as u64;
        if left < count {
            return None;
        }
        self.at += count as usize;
        Some(())
    }

    // Whether nothing is left.
    pub fn is_ended(&self) -> bool
        ensures { result ≡ is_empty (rest_of self.now) }
    {
        self.body.len() <= self.at
    }
}

// The number at a place, in a field whose largest value is the limit. Every field of a body is read through here.
pub fn number_at(body: &[u8], at: usize, limit: u64) -> Option<Number>
    ensures { NumberAt body.now at limit result }
{
    read(body, at, limit)
}

// Plain bytes of a body are read through here: as many as out has room for.
pub fn bytes_at(body: &[u8], at: usize, out: &mut [u8])
    requires { at + length out.old ≤ length body.now }
    ensures { out.new ≡ take (length out.old) (drop at body.now) }
{
    copy(&body[at..at + out.len()], out);
}
