// A book holds each record once: a record that is there already keeps its number, a new one gets
// the next. The records stand in a slice that the caller lends, whose length is the book's limit.
#![tactic(auto)]

ghost use Rattle.std.specs.Prelude.{◌≡◌, ◌<◌, ◌≤◌, Bool, [], ◌∷◌, length, take, drop, IfOk};
ghost use Rattle.std.specs.List.{position};
ghost use Rattle.std.specs.Result.{is_ok};

// There is no room for one more record.
#[derive(Clone, Copy, PartialEq, Eq, Debug, Drop)]
pub struct Full;

// The first `count` of the lent records are the book's. The slice stands for the memory that a
// question may use: none is reserved while it runs.
#[derive(Drop)]
pub struct Book<'a, T> {
    records: &'a mut [T],
    count: usize,
    pub ghost within: { count ≤ length records.now },
}

// The number of the first record that is the same as x.
pub fn find<T: PartialEq>(records: &[T], x: &T) -> Option<usize>
    ensures { result ≡ position (T.eq x.now) records.now }
{
    records.iter().position(|record| x == record)
}

impl<'a, T: PartialEq + Copy> Book<'a, T> {
    ghost use Rattle.theory.specs.Count.{enter};
    ghost use Rattle.book.specs.Place.{numbered};
    ghost use Rattle.book.specs.Feeding.{holds, room, Fills};

    // The book of the first `count` of the lent records, or of all where they are fewer, with room for as
    // many as are lent.
    pub fn of(records: &'a mut [T], count: usize) -> Book<'a, T>
        ensures held { holds result ≡ take count records.old }
        ensures room { room result ≡ length records.old }
        ensures lent { result.records.ghost_name ≡ records.entry.ghost_name }
    {
        let count = count.min(records.len());
        Book { records, count }
    }

    // The book of no record, with room for as many as are lent.
    pub fn new(records: &'a mut [T]) -> Book<'a, T>
        ensures held { holds result ≡ [] }
        ensures room { room result ≡ length records.old }
        ensures lent { result.records.ghost_name ≡ records.entry.ghost_name }
    {
        Book { records, count: 0 }
    }

    // The records of the book.
    pub fn records(&self) -> &[T]
        ensures { result.now ≡ holds self.now }
    {
        &self.records[..self.count]
    }

    // Enters x: its number, or `Full` where it is new and the book is full. What the book then holds
    // is the first of the records that entering gives, as many as have room. The records beyond
    // stay, and so does the loan.
    pub fn enter(&mut self, x: T) -> Result<usize, Full>
        ensures number { result ≡ numbered T.eq (room self.old) (holds self.old) x }
        ensures held { holds self.new ≡ take (room self.old) (enter T.eq (holds self.old) x) }
        ensures beyond { drop self.new.count self.new.records.now ≡ drop self.new.count self.old.records.now }
        ensures len { room self.new ≡ room self.old }
        ensures lent { self.new.records.ghost_name ≡ self.old.records.ghost_name }
    {
        if let Some(place) = find(self.records(), &x) {
            return Ok(place);
        }
        if self.count == self.records.len() {
            return Err(Full);
        }
        let place = self.count;
        self.records[place] = x;
        self.count = place + 1;
        Ok(place)
    }

    // Enters x, so that it is in the book afterwards, unless it is new and the book is full.
    pub fn put(&mut self, x: T) -> Result<(), Full>
        ensures { Fills T.eq self.old self.new (x ∷ []) (is_ok result) }
    {
        self.enter(x)?;
        Ok(())
    }
}
