//! A line from its front, mark by mark, as it is plainly written.
//! What a mark is, and what stands behind it, is said in the lexemes of JSON, which have no spaces.
ghost use Rattle.std.specs.Prelude.{◌≡◌, ◌≤◌, ◌<◌, [], ◌∷◌, ◌+◌, length, take, get_or, ◌==◌, true, false, IfSome, decimal};
ghost use Rattle.std.specs.Bool.{OnTrue};
ghost use Rattle.std.specs.List.{list_all, position};
ghost use Rattle.json.specs.Print.{escape};
ghost use Rattle.json.specs.Word.{ends_word};
ghost use Rattle.json.specs.Lex.{token, comma};
ghost use Rattle.json.specs.Token.{begin_array, end_array, string, number};
ghost use Rattle.amm_command.specs.Front.{ahead};
ghost use Rattle.amm_command.specs.Spelled.{is_blank};

/// What is left of a line.
#[derive(Drop)]
pub struct Cursor<'t> {
    rest: &'t [u8],
}

impl<'t> Cursor<'t> {
    pub fn new(bytes: &'t [u8]) -> Cursor<'t>
        ensures { result.rest.now ≡ bytes.now }
    {
        Cursor { rest: bytes }
    }

    /// Whether nothing is left but spaces, tabs and carriage returns.
    pub fn is_at_end(&self) -> bool
        ensures { OnTrue result (ahead self.now ≡ []) }
    {
        are_blank(self.rest)
    }

    /// The bracket that opens an array.
    #[tactic(auto, unfolding(json::specs::Lex::lex))]
    pub fn open(&mut self) -> bool
        ensures { OnTrue result
            (ahead self.old ≡ token begin_array ∷ ahead self.new) }
    {
        match self.rest {
            [b'[', rest @ ..] => {
                self.rest = rest;
                true
            }
            _ => false,
        }
    }

    /// The bracket that closes an array.
    #[tactic(auto, unfolding(json::specs::Lex::lex))]
    pub fn close(&mut self) -> bool
        ensures closed { OnTrue result (ahead self.old ≡ token end_array ∷ ahead self.new) }
        ensures kept { result ≡ false → ahead self.new ≡ ahead self.old }
    {
        match self.rest {
            [b']', rest @ ..] => {
                self.rest = rest;
                true
            }
            _ => false,
        }
    }

    /// Whether a digit stands behind the comma.
    pub fn is_number_next(&self) -> bool {
        match self.rest {
            [b',', b' ', b, ..] => b'0' <= *b && *b <= b'9',
            [b',', b, ..] => b'0' <= *b && *b <= b'9',
            _ => false,
        }
    }

    /// A comma, and the space that may follow it.
    #[tactic(auto, unfolding(json::specs::Lex::lex))]
    pub fn comma(&mut self) -> bool
        ensures { OnTrue result (ahead self.old ≡ comma ∷ ahead self.new) }
    {
        match self.rest {
            [b',', b' ', rest @ ..] => {
                self.rest = rest;
                true
            }
            [b',', rest @ ..] => {
                self.rest = rest;
                true
            }
            _ => false,
        }
    }

    /// A quotation mark.
    fn quote(&mut self) -> bool
        ensures { OnTrue result (self.old.rest.now ≡ 34 ∷ self.new.rest.now) }
    {
        match self.rest {
            [b'"', rest @ ..] => {
                self.rest = rest;
                true
            }
            _ => false,
        }
    }

    /// The bytes of a string up to the next quotation mark. They are its text where none of them
    /// needs an escape, as in names.
    pub fn text(&mut self) -> Option<&'t [u8]>
        ensures { IfSome result (λ s. escape s.now ≡ s.now
            → ahead self.old ≡ token (string s.now) ∷ ahead self.new) }
    {
        if !self.quote() {
            return None;
        }
        let inside = self.rest;
        let end = quote_place(inside)?;
        self.rest = &inside[end + 1..];
        Some(&inside[..end])
    }

    /// A whole number of at most 2^52-1 with no sign and no leading zero, before a comma or a
    /// bracket.
    pub fn number(&mut self) -> Option<u64>
        ensures text { IfSome result (λ n. ahead self.old
            ≡ token (number (decimal n)) ∷ ahead self.new) }
        ensures amount { IfSome result (λ n. n ≤ 4503599627370495) }
    {
        let rest = self.rest;
        let (n, end) = whole(rest)?;
        let behind = &rest[end..];
        if is_amount(n) && ends_word(behind) {
            self.rest = behind;
            Some(n)
        } else {
            None
        }
    }
}

/// Where the first quotation mark stands.
fn quote_place(bytes: &[u8]) -> Option<usize>
    ensures { result ≡ position (λ b. b == 34) bytes.now }
{
    bytes.iter().position(|b| *b == b'"')
}

fn are_blank(bytes: &[u8]) -> bool
    ensures { result ≡ list_all is_blank bytes.now }
{
    bytes.iter().all(|b| is_blank(*b))
}

fn is_blank(b: u8) -> bool
    ensures { result ≡ is_blank b }
{
    b == b' ' || b == b'\t' || b == b'\r'
}

/// Whether a number is at most 2^52-1.
fn is_amount(n: u64) -> bool
    ensures { OnTrue result (n ≤ 4503599627370495) }
{
    n <= 4503599627370495
}

/// Whether a comma or a closing bracket stands first.
fn ends_word(bytes: &[u8]) -> bool
    ensures { OnTrue result (ends_word bytes.now ≡ true) }
{
    match bytes {
        [b',', ..] => true,
        [b']', ..] => true,
        _ => false,
    }
}

/// The number that the first digits spell, where there are any, and how many they are. Behind a
/// leading zero none is taken.
fn whole(bytes: &[u8]) -> Option<(u64, usize)>
    ensures short { IfSome result (λ p. p.1 ≤ length bytes.now) }
    ensures value { IfSome result (λ p. take p.1 bytes.now ≡ decimal p.0) }
{
    let first = digit(bytes, 0)?;
    if first == 0 {
        return Some((0, 1));
    }
    let mut n = first;
    let mut end = 1;
    while let Some(next) = digit(bytes, end) {
        if n > 450359962737049 {
            return None;
        }
        n = n * 10 + next;
        end += 1;
    }
    Some((n, end))
}

/// The digit at a place, if one is there.
fn digit(bytes: &[u8], at: usize) -> Option<u64>
    ensures there { IfSome result (λ d. at < length bytes.now) }
    ensures is { IfSome result (λ d. get_or bytes.now at 0 ≡ 48 + d) }
    ensures small { IfSome result (λ d. d < 10) }
{
    let b = *bytes.get(at)?;
    if b'0' <= b && b <= b'9' {
        Some((b - b'0') as u64)
    } else {
        None
    }
}
