// Putting bytes on a page over a lent buffer, or only counting them.
#![tactic(auto)]

ghost use Rattle.std.specs.Prelude.{◌≡◌, ◌∷◌, [], ◌+◌, ◌≤◌, ◌<◌, List, ℕ, length};
ghost use Rattle.document.specs.Desk.{printed};
ghost use Rattle.buffer.specs.Sinks.{Puts, page_room, Counted, count_room, SinkLaws};
ghost use Rattle.buffer.specs.Laws.{page_laws, count_laws};

// What bytes are put into.
pub trait Sink {
    ghost puts: { Self → List ℕ → Self → Type 0 };

    // How many bytes more it takes.
    ghost room: { Self → ℕ };

    fn put_byte(&mut self, b: u8)
        requires { 1 ≤ room self.old }
        ensures { puts self.old (b ∷ []) self.new };

    fn put_word(&mut self, word: &[u8])
        requires { length word.now ≤ room self.old }
        ensures { puts self.old word.now self.new }
    {
        for b in word {
            self.put_byte(*b);
        }
    }

    ghost laws: { SinkLaws puts room };
}

// A lent buffer, filled up to `at`.
#[derive(Drop)]
pub struct Page<'a> {
    pub bytes: &'a mut [u8],
    pub at: usize,
}

impl Sink for Page<'_> {
    ghost puts = { Puts };

    ghost room = { page_room };

    fn put_byte(&mut self, b: u8) {
        self.bytes[self.at] = b;
        self.at += 1;
    }

    ghost laws = { page_laws };
}

// How many bytes a page would take.
#[derive(Drop)]
pub struct Count {
    pub len: usize,
}

impl Sink for Count {
    ghost puts = { Counted };

    ghost room = { count_room };

    fn put_byte(&mut self, _b: u8) {
        self.len += 1;
    }

    fn put_word(&mut self, word: &[u8]) {
        self.len += word.len();
    }

    ghost laws = { count_laws };
}

// A number in decimal: the digits of a tenth of it, then its last.
pub fn put_number<S: Sink>(n: u64, out: &mut S)
    requires { length (printed n) ≤ S.room out.old }
    ensures { S.puts out.old (printed n) out.new }
{
    if n < 10 {
        out.put_byte(data::ZERO + n as u8);
        return;
    }
    put_number(n / 10, out);
    out.put_byte(data::ZERO + (n % 10) as u8);
}
