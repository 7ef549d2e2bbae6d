// How many replies accept their line, and how many refuse it.
ghost use Rattle.std.specs.Prelude.{◌≡◌, ◌<◌, ◌+◌, ◌^◌, List, if◌then◌else◌};
ghost use Rattle.amm_model.specs.declared.reply.Reply.{Reply};
ghost use Rattle.serde_json.specs.Written.{compact_text};
ghost use Rattle.amm_model.specs.ReplyText.{reply_value};
ghost use Rattle.amm_model.specs.Runs.{output_of};
ghost use Rattle.amm_verdicts.specs.Verdicts.{accepted_in, refused_in, is_refused};

use memchr::memchr;

/// How many replies say `ok`, and how many `no`.
#[derive(Clone, Copy, Debug, PartialEq, Eq)]
pub struct Verdicts {
    pub accepted: u64,
    pub refused: u64,
}

impl Verdicts {
    /// The verdicts of replies, counted from their bytes.
    pub fn of(replies: &[u8]) -> Verdicts
        ensures accepted { (all : List Reply) → replies.now ≡ output_of all → result.accepted ≡ accepted_in all }
        ensures refused { (all : List Reply) → replies.now ≡ output_of all → result.refused ≡ refused_in all }
    {
        let mut verdicts = Verdicts {
            accepted: 0,
            refused: 0,
        };
        let mut rest = replies;
        while let Some(end) = memchr(b'\n', rest) {
            verdicts = verdicts.with(refuses(&rest[..end]));
            rest = &rest[end + 1..];
        }
        verdicts
    }

    /// With one more reply, which refuses its line or not.
    fn with(self, refuses: bool) -> Verdicts
        requires { self.accepted + self.refused < 2 ^ 63 }
        ensures { result ≡ (record {
          accepted = (if refuses then 0 else 1) + self.accepted;
          refused = (if refuses then 1 else 0) + self.refused;
        }) }
    {
        if refuses {
            Verdicts {
                accepted: self.accepted,
                refused: self.refused + 1,
            }
        } else {
            Verdicts {
                accepted: self.accepted + 1,
                refused: self.refused,
            }
        }
    }
}

/// Whether a reply refuses its line: the first string in it is its verdict.
fn refuses(reply: &[u8]) -> bool
    ensures { (told : Reply) → reply.now ≡ compact_text (reply_value told) → result ≡ is_refused told }
{
    match memchr(b'"', reply) {
        Some(quote) => reply[quote..].starts_with(b"\"no\""),
        None => false,
    }
}
