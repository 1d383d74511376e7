// What the lines of the bench and of the trial have in common (paper 01, "Bench program").
ghost use Rattle.std.specs.Prelude.{◌++◌};
ghost use Rattle.text.specs.Text.{Wrote, decimal};
ghost use Rattle.text.specs.Lines.{newline, answer_text, time_text, bad_text, cut_text};

use crate::Out;
use clock::GlobalTime;

impl Out<'_> {
    // An item's number and the answer's.
    pub fn put_answer(&mut self, item: u64, number: u8)
        ensures { Wrote (answer_text item number) self.old self.new }
    {
        self.put_decimal(item);
        self.put_byte(b' ');
        self.put_decimal(number as u64);
    }

    // Seconds, a point, nine digits.
    pub fn put_time(&mut self, time: GlobalTime)
        ensures { Wrote (time_text time) self.old self.new }
    {
        self.put_decimal(time.0);
        self.put_byte(b'.');
        self.put_nine_digits(time.1);
    }

    // The line of an item with a wrong mark or kind.
    pub fn put_bad(&mut self, item: u64)
        ensures { Wrote (bad_text item) self.old self.new }
    {
        self.put_record(b"bad record ", item);
    }

    // The line of a short tail.
    pub fn put_cut(&mut self, item: u64)
        ensures { Wrote (cut_text item) self.old self.new }
    {
        self.put_record(b"cut record ", item);
    }

    // Words, the item's number, and the end of the line.
    fn put_record(&mut self, words: &[u8], item: u64)
        ensures { Wrote (words.now ++ decimal item ++ newline) self.old self.new }
    {
        self.put_bytes(words);
        self.put_decimal(item);
        self.put_byte(b'\n');
    }
}
