//! The versions of proof texts.

ghost use Rattle.std.specs.Prelude.{◌≡◌, [], unwrap_or};
ghost use Rattle.group_text.specs.Version.{is_further, version_of};
ghost use Rattle.group_text.specs.inner.Reading.{has_mems};

/// A version of proof texts, by its number in the first line.
#[derive(Clone, Copy, Debug, PartialEq, Eq)]
pub enum Version {
    One,
    /// A table of terms stands behind the definitions of a group, and its lines leave out what can
    /// be computed.
    Two,
    /// A line may state a triple by the rule `steer`: for functions that call others.
    Three,
    /// A line may state a triple by the rule `exchange`, and each group has two memories.
    Four,
}

impl Version {
    /// What follows `mcproof` in the first line.
    pub fn title(self) -> &'static [u8]
        ensures { result.now ≡ (version_of self).title }
    {
        match self {
            Version::One => b"1",
            Version::Two => b"2",
            Version::Three => b"3",
            Version::Four => b"4",
        }
    }

    /// The fewest memories of a group.
    fn least_mems(self) -> u64
        ensures { result ≡ (version_of self).least_mems }
    {
        match self {
            Version::One => 0,
            Version::Two => 0,
            Version::Three => 0,
            Version::Four => 2,
        }
    }

    /// The most memories of a group.
    fn most_mems(self) -> u64
        ensures { result ≡ (version_of self).most_mems }
    {
        match self {
            Version::One => 1,
            Version::Two => 1,
            Version::Three => 1,
            Version::Four => 2,
        }
    }

    /// Whether a group may have so many memories.
    pub fn has_mems(self, mems: u64) -> bool
        ensures { result ≡ has_mems (version_of self) mems }
    {
        self.least_mems() <= mems && mems <= self.most_mems()
    }

    /// Whether a line by the further rule begins with that word.
    pub fn is_further(self, word: &[u8]) -> bool
        ensures { result ≡ is_further (version_of self) word.now }
    {
        match self {
            Version::One => false,
            Version::Two => false,
            Version::Three => word == b"steer".as_slice(),
            Version::Four => word == b"exchange".as_slice(),
        }
    }

    /// The first word of a line by the further rule, and no byte where there is no such rule.
    pub fn further_word(self) -> &'static [u8]
        ensures { result.now ≡ unwrap_or (version_of self).further [] }
    {
        match self {
            Version::One => b"",
            Version::Two => b"",
            Version::Three => b"steer",
            Version::Four => b"exchange",
        }
    }
}
