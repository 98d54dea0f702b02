// Reading a token list back: survey the whole, then fill the two tables.
ghost use Rattle.std.specs.Prelude.{◌≡◌};
ghost use Rattle.lists.specs.Promise.{ReadsBack};
ghost use Rattle.filling.specs.Filling.{tokens_in, step_of, survey_of};

use filling::{Step, Survey, fill_tables};
use reader::reading::read_token;
use tokens::{Outcome, Read, Refusal, Refused};

// What the token does to the counts.
fn step_of(token: Read) -> Step
    ensures { Ok result ≡ step_of (Ok token) }
{
    match token {
        Read::Number { next, .. } | Read::Operator { next, .. } => Step::new(1, 0, next),
        Read::Identifier { len, next } | Read::String { count: len, next } => {
            Step::new(1, len, next)
        }
        Read::Comment { next } => Step::new(0, 0, next),
    }
}

// Reads all tokens, and counts them and their texts.
fn survey_of(s: &[u8]) -> Result<Survey, Refused>
    ensures { result ≡ survey_of (tokens_in s.now) }
{
    let mut at: usize = 21;
    let mut count: usize = 0;
    let mut texts: usize = 0;
    while at < s.len() {
        let token = read_token(s, at)?;
        let step = step_of(token);
        count += step.adds;
        texts += step.text;
        at = step.next;
    }
    Ok(Survey { count, texts })
}

// Reads a written list back into a token table and a text table, and answers the number of tokens.
pub fn read_back(s: &[u8], list: &mut [u8], text: &mut [u8]) -> Outcome
    ensures { ReadsBack s.now list.old list.new text.old text.new result }
{
    if tokens::header::LONGEST < s.len() {
        return Err(Refusal::TooLong.met_at(0));
    }
    if !tokens::header::begins(s) {
        return Err(Refusal::BadHeader.met_at(0));
    }
    let survey = survey_of(s)?;
    if list.len() / 16 < survey.count || text.len() < survey.texts {
        return Err(Refusal::TableTooShort.met_at(0));
    }
    fill_tables(s, list, text);
    Ok(survey.count)
}
