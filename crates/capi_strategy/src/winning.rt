// Strategy: refusal number and place; or a word, the counts, and the variable stopped at, the strategy's length or its rows.
ghost use Rattle.std.specs.Prelude.{◌≡◌};
ghost use Rattle.sheet.specs.Format.{narrow, wide};
ghost use Rattle.sheet.specs.Strategy.{strategy_call};
ghost use Rattle.rows.specs.Formats.{format_of};
ghost use Rattle.strategy.specs.Answers.{strategy_told};
ghost use Rattle.capi_strategy.specs.Strategies.{packed_counts, packed_strategy, all_left, packed_winning, ToldStrategy};

use packing::{pack_refusal, word_for};
use rows::Format;
use rows::refusals::Refusal;
use strategy::StrategyAnswer;

// A word, two counts and a value in one number.
fn pack_counts(word: usize, settled: usize, expanded: usize, last: usize) -> u64
    ensures { result ≡ packed_counts word settled expanded last }
{
    let w = (word % 256) as u64;
    let s = (settled % 4096) as u64;
    let e = (expanded % 4096) as u64;
    let l = (last % 16777216) as u64;
    256 * w + 65536 * s + 268435456 * e + 1099511627776 * l
}

// What Strategy answers: refusal number and place; or a word, the counts and a value. A strategy that is too long has the verdict's word and 3.
#[tactic(auto, unfolding(crate::specs::Strategies::packed_strategy))]
fn pack_strategy(answer: Result<StrategyAnswer, Refusal>) -> u64
    ensures { result ≡ packed_strategy (strategy_told answer) }
{
    match answer {
        Ok(StrategyAnswer::Stopped(x, settled, expanded)) => pack_counts(2, settled, expanded, x),
        Ok(StrategyAnswer::Written(verdict, settled, expanded, length)) => pack_counts(
            word_for(verdict),
            settled,
            expanded,
            length,
        ),
        Ok(StrategyAnswer::TooLong(verdict, settled, expanded, rows)) => pack_counts(
            3 + word_for(verdict),
            settled,
            expanded,
            rows,
        ),
        Err(refusal) => pack_refusal(refusal),
    }
}

fn strategy(sheet: &[u8], f: Format, first: &mut [u8], second: &mut [u8], out: &mut [u8]) -> u64
    ensures out_value { all_left result first second out ≡ packed_winning (strategy_call (format_of f) sheet.now first.old second.old out.old) }
    ensures told_strategy { ToldStrategy (format_of f) sheet.now result first.new out.new }
{
    pack_strategy(strategy::strategy(sheet, f, first, second, out))
}

#[unsafe(no_mangle)]
pub extern "C" fn plumanchor_strategy(
    sheet: &[u8],
    first: &mut [u8],
    second: &mut [u8],
    out: &mut [u8],
) -> u64
    ensures out_value { all_left result first second out ≡ packed_winning (strategy_call narrow sheet.now first.old second.old out.old) }
    ensures told_strategy { ToldStrategy narrow sheet.now result first.new out.new }
{
    strategy(sheet, Format::Narrow, first, second, out)
}

#[unsafe(no_mangle)]
pub extern "C" fn plumanchor_strategy_wide(
    sheet: &[u8],
    first: &mut [u8],
    second: &mut [u8],
    out: &mut [u8],
) -> u64
    ensures out_value { all_left result first second out ≡ packed_winning (strategy_call wide sheet.now first.old second.old out.old) }
    ensures told_strategy { ToldStrategy wide sheet.now result first.new out.new }
{
    strategy(sheet, Format::Wide, first, second, out)
}
