ghost use Rattle.std.specs.Prelude.{◌≡◌, IsTrue, pos};

/// What of a row is still to be read. Where something is missing or is no number the row is refused, and stays so.
#[derive(Clone, Copy)]
pub struct Row<'a> {
    pub rest: &'a str,
    pub refused: bool,
}

impl<'a> Row<'a> {
    pub fn new(rest: &'a str) -> Row<'a> {
        Row {
            rest,
            refused: false,
        }
    }

    /// Says that the row is none.
    pub fn refuse(&mut self)
        ensures { IsTrue self.new.refused }
    {
        self.refused = true;
    }

    /// The next word, or nothing where there is none.
    pub fn word(&mut self) -> &'a str
        ensures { IsTrue self.old.refused → IsTrue self.new.refused }
    {
        let rest = self.rest.trim_start();
        let (word, behind) = match rest.split_once(' ') {
            Some((word, behind)) => (word, behind),
            None => (rest, ""),
        };
        self.rest = behind;
        self.refused |= word.is_empty();
        word
    }

    /// What stands before the next such character, or nothing where there is none.
    pub fn part(&mut self, end: char) -> &'a str
        ensures { IsTrue self.old.refused → IsTrue self.new.refused }
    {
        match self.rest.split_once(end) {
            Some((part, behind)) => {
                self.rest = behind;
                part
            }
            None => {
                self.refused = true;
                ""
            }
        }
    }

    /// A number, or 0 where there is none or the row is refused.
    fn kept<N: Copy + Drop>(&mut self, number: Option<N>, zero: N) -> N
        ensures zero { IsTrue self.new.refused → result ≡ zero }
        ensures kept { IsTrue self.old.refused → IsTrue self.new.refused }
    {
        match number {
            Some(number) if !self.refused => number,
            _ => {
                self.refused = true;
                zero
            }
        }
    }

    /// The next word as a number, 0 in a row that is refused.
    pub fn u8(&mut self) -> u8
        ensures zero { IsTrue self.new.refused → result ≡ 0 }
        ensures kept { IsTrue self.old.refused → IsTrue self.new.refused }
    {
        let number = self.word().parse::<u8>().ok();
        self.kept(number, 0)
    }

    /// The next word as a number, 0 in a row that is refused.
    pub fn u16(&mut self) -> u16
        ensures zero { IsTrue self.new.refused → result ≡ 0 }
        ensures kept { IsTrue self.old.refused → IsTrue self.new.refused }
    {
        let number = self.word().parse::<u16>().ok();
        self.kept(number, 0)
    }

    /// The next word as a number, 0 in a row that is refused.
    pub fn u32(&mut self) -> u32
        ensures zero { IsTrue self.new.refused → result ≡ 0 }
        ensures kept { IsTrue self.old.refused → IsTrue self.new.refused }
    {
        let number = self.word().parse::<u32>().ok();
        self.kept(number, 0)
    }

    /// The next word as a number, 0 in a row that is refused.
    pub fn u64(&mut self) -> u64
        ensures zero { IsTrue self.new.refused → result ≡ 0 }
        ensures kept { IsTrue self.old.refused → IsTrue self.new.refused }
    {
        let number = self.word().parse::<u64>().ok();
        self.kept(number, 0)
    }

    /// The next word as a number, 0 in a row that is refused.
    pub fn usize(&mut self) -> usize
        ensures zero { IsTrue self.new.refused → result ≡ 0 }
        ensures kept { IsTrue self.old.refused → IsTrue self.new.refused }
    {
        let number = self.word().parse::<usize>().ok();
        self.kept(number, 0)
    }

    /// The next word as a number, 0 in a row that is refused.
    pub fn i32(&mut self) -> i32
        ensures zero { IsTrue self.new.refused → result ≡ pos 0 }
        ensures kept { IsTrue self.old.refused → IsTrue self.new.refused }
    {
        let number = self.word().parse::<i32>().ok();
        self.kept(number, 0)
    }

    /// The next word as a number, 0 in a row that is refused.
    pub fn i64(&mut self) -> i64
        ensures zero { IsTrue self.new.refused → result ≡ pos 0 }
        ensures kept { IsTrue self.old.refused → IsTrue self.new.refused }
    {
        let number = self.word().parse::<i64>().ok();
        self.kept(number, 0)
    }

    /// The next word as a number, 0 in a row that is refused.
    pub fn i128(&mut self) -> i128
        ensures zero { IsTrue self.new.refused → result ≡ pos 0 }
        ensures kept { IsTrue self.old.refused → IsTrue self.new.refused }
    {
        let number = self.word().parse::<i128>().ok();
        self.kept(number, 0)
    }
}
