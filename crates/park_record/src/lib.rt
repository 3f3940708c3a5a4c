// The park record, in sector 0: where the tail was when the volume was parked.
#![tactic(auto)]

ghost use Rattle.std.specs.Prelude.{◌≡◌, length};
ghost use Rattle.geometry.specs.Geometry.{sector_bytes};
ghost use Rattle.layout.specs.Bounded.{at};
ghost use Rattle.layout.specs.Word.{words_of};
ghost use Rattle.layout.specs.ParkRecord.{park_record, is_park_record};

use geometry::Geometry;

// Words 4 and on are zero.
const ZEROS: usize = Geometry::WORDS - 4;

// Fills s with a park record: its words in order, with zero for the balance, which is put in last.
pub fn put_park(s: &mut [u8], number: u32, tail: u32)
    requires { length s.old ≡ sector_bytes }
    ensures { s.new ≡ park_record (record { number = number; tail = tail }) }
{
    marks::put_mark(s, &marks::PARK_MARK);
    words::put_word(s, 1, 0);
    words::put_word(s, 2, number);
    words::put_word(s, 3, tail);
    words::put_zeros(s, 4, ZEROS);
    sums::put_balance(s);
}

// Whether s is laid out as a park record.
pub fn is_park(s: &[u8]) -> bool
    requires { length s.now ≡ sector_bytes }
    ensures { result ≡ is_park_record s.now (words_of s.now) }
{
    if !marks::starts_with(s, &marks::PARK_MARK) {
        return false;
    }
    if sums::word_sum(s) != 0 {
        return false;
    }
    words::words_zero(s, 4, Geometry::WORDS)
}

// The tail's number.
pub fn parked_number(s: &[u8]) -> u32
    requires { length s.now ≡ sector_bytes }
    ensures { result ≡ at (words_of s.now) 2 }
{
    words::word_at(s, 2)
}

// The tail's sector.
pub fn parked_tail(s: &[u8]) -> u32
    requires { length s.now ≡ sector_bytes }
    ensures { result ≡ at (words_of s.now) 3 }
{
    words::word_at(s, 3)
}
