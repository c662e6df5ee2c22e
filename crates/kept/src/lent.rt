// An array of which the front is lent.
ghost use Rattle.std.specs.Prelude.{◌≡◌, ◌++◌, ◌≤◌, length, drop, take};
ghost use Rattle.kept.specs.Kept.{Lends, LendLeaves};

use ports::Terminal;

// The array, and how much of it is lent.
#[derive(Drop)]
pub struct Lent<T, const N: usize> {
    pub room: [T; N],
    pub len: usize,
    ghost within: { len ≤ N },
}

impl<T: Copy, const N: usize> Lent<T, N> {
    // What is lent.
    pub fn lent(&self) -> &[T]
        ensures { result.now ≡ take self.now.len self.now.room }
    {
        let room = &self.room[..];
        &room[..self.len]
    }

    // What is lent, to be written.
    pub fn lent_mut(&mut self) -> &mut [T]
        ensures { result.now ≡ take self.old.len self.old.room }
    {
        let n = self.len;
        let room = &mut self.room;
        &mut room[..n]
    }

    // Lends so many fresh things.
    pub fn lend(&mut self, n: usize, fresh: T)
        requires { n ≤ N }
        ensures { Lends fresh n self.old.room self.new.len self.new.room }
    {
        let front = &mut self.room[..n];
        for place in front.iter_mut() {
            *place = fresh;
        }
        self.len = n;
    }

    // Lends what is given, in front of the array.
    pub fn put(&mut self, given: &[T])
        requires { length given.now ≤ N }
        ensures { (self.new.len ≡ length given.now) × (self.new.room ≡ given.now ++ drop (length given.now) self.old.room) }
    {
        let front = &mut self.room[..given.len()];
        front.copy_from_slice(given);
        self.len = given.len();
    }
}

// lend book, lend pins and lend target: so many fresh things, where the array has room for them.
pub fn lend<T: Copy, const N: usize>(
    terminal: &mut Terminal,
    numbers: u64,
    fresh: T,
    to: &mut Lent<T, N>,
)
    ensures { LendLeaves fresh numbers to.old.len to.old.room to.new.len to.new.room }
{
    let n = numbers as usize;
    if N < n {
        terminal.write(b"? too many\n");
        return;
    }
    to.lend(n, fresh);
    terminal.write(b"lent\n");
}
