// The first refusal of a whole source by the lexer's rules: 11, 12, then 1 to 10 in source order.
#![tactic(auto)]

ghost use Rattle.std.specs.Prelude.{◌≡◌};
ghost use Rattle.rules.specs.Base.{verdict};
ghost use Rattle.rules.specs.Tokens.{lexed};
ghost use Rattle.rules.proofs.Walk.{tokens_on};
ghost use Rattle.lex_source.specs.Lexed.{meant_lexed, stop};

use base_refusals::Fault;
use lex_token::Lexeme;

// The end of the source, or a refusal.
fn stopped(t: Lexeme) -> Result<(), Fault>
    ensures { result ≡ stop t }
{
    if t.sort == lex_token::END {
        return Ok(());
    }
    Err(Fault {
        number: t.value,
        start: t.start,
        end: t.end,
    })
}

// 1 to 10, the first in the source: one walk over its tokens.
fn token_refusal(src: &[u8]) -> Result<(), Fault>
    ensures { meant_lexed result ≡ tokens_on src.now 0 }
{
    let mut at: usize = 0;
    // A loop: each token says where the next one is looked for.
    loop {
        let t = lex::next_lexeme(src, at);
        if lex_token::END <= t.sort {
            return stopped(t);
        }
        at = t.end;
    }
}

// 11, then 12, for which all bytes are looked at once, then the tokens.
pub fn first_refusal(src: &[u8]) -> Result<(), Fault>
    ensures { meant_lexed result ≡ verdict (lexed src.now) }
{
    if base_capacities::SOURCE_BYTES < src.len() {
        return Err(Fault {
            number: base_refusals::SOURCE_TOO_LONG,
            start: 0,
            end: src.len(),
        });
    }
    let high = base_runs::ascii_end(src);
    if high < src.len() {
        return Err(Fault {
            number: base_refusals::NON_ASCII,
            start: high,
            end: high + 1,
        });
    }
    token_refusal(src)
}
