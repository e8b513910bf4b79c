//! What is said before requests: the greeting, the client's flags, and options.
ghost use Rattle.std.specs.Prelude.{◌≡◌, ◌⊎◌, ◌<◌, ◌≤◌, ◌^◌, [], IfOk, IfErr, OnOk, OnErr, IsSome};
ghost use Rattle.sdbt_base.specs.Told.{Got, GotPart};
ghost use Rattle.nbd_lang.specs.Options.{OptionSent, option_bytes};
ghost use Rattle.nbd_lang.specs.Answers.{option_reply, export_answer};
ghost use Rattle.nbd_core.specs.Stops.{EndsOnce, TellsPut, TellsTake, TellsTalk};
ghost use Rattle.nbd_core.specs.Haggling.{answer_by, FlagsCame, OptionCame, Talk, Haggled};

use crate::intake::Intake;
use crate::stop::Stop;
use nbd_lang::{
    Answer, CLIENT_FLAGS, ClientFlags, EXPORT_ANSWER, GREETING, OPTION_HEAD, OPTION_MAGIC,
    OPTION_REPLY, OptionHead, OptionKind, is_option, read_flags, read_option, write_export_answer,
    write_option_reply,
};
use sdbt_base::{Sink, Source};

/// What was agreed.
#[derive(Clone, Copy, Debug, PartialEq, Eq)]
pub enum Agreed {
    /// That requests follow.
    Requests,
    /// That nothing does: the client ended it, or its input ended between two options.
    Nothing,
}

/// Greets a client that may take a device of `size` bytes, and answers its options up to the one
/// after which requests come or nothing does. Each answer is put before more is taken.
pub fn haggle<I: Source, O: Sink>(
    intake: &mut Intake,
    size: u64,
    input: &mut I,
    output: &mut O,
) -> Result<Agreed, Stop>
    requires { intake.old.ahead ≡ [] }
    ensures haggled { Haggled size (I.left input.old) (I.left input.new) intake.old intake.new
        (O.written output.old) (O.written output.new) result }
    ensures cause { TellsTalk result (I.faults input.old) (I.faults input.new)
        (O.faults output.old) (O.faults output.new) }
    ensures limit { IfErr result (λ stop. stop ≡ Stop.Limit → intake.new.left ≡ 0) }
    ensures ended { EndsOnce result (λ agreed. agreed ≡ Agreed.Requests) (I.ends input.old) (I.ends input.new) }
    ensures input { I.faults input.old ≤ I.faults input.new }
    ensures output { O.faults output.old ≤ O.faults output.new }
{
    put(&GREETING, output)?;
    let flags = take_flags(intake, input)?;
    answer_options(intake, size, flags, input, output)
}

/// Takes the client's flags.
fn take_flags<I: Source>(intake: &mut Intake, input: &mut I) -> Result<ClientFlags, Stop>
    ensures came { FlagsCame (I.left input.old) (I.left input.new) intake.old intake.new result }
    ensures limit { IfErr result (λ stop. stop ≡ Stop.Limit → intake.new.left ≡ 0) }
    ensures ended { EndsOnce result (λ flags. Unit {0}) (I.ends input.old) (I.ends input.new) }
    ensures fell { I.faults input.old ≤ I.faults input.new }
    ensures cause { TellsTake result (I.faults input.old) (I.faults input.new) }
{
    if !intake.need(input, CLIENT_FLAGS)? {
        return Err(Stop::Broken);
    }
    let Some(flags) = read_flags(&intake.ahead()[..CLIENT_FLAGS]) else {
        return Err(Stop::Broken);
    };
    intake.skip(CLIENT_FLAGS);
    Ok(flags)
}

/// Answers options up to the one after which requests come or nothing does.
fn answer_options<I: Source, O: Sink>(
    intake: &mut Intake,
    size: u64,
    flags: ClientFlags,
    input: &mut I,
    output: &mut O,
) -> Result<Agreed, Stop>
    ensures talk { Talk size flags.no_zeroes (I.left input.old)
        (I.left input.new) intake.old intake.new (O.written output.old)
        (O.written output.new) result }
    ensures cause { TellsTalk result (I.faults input.old) (I.faults input.new)
        (O.faults output.old) (O.faults output.new) }
    ensures limit { IfErr result (λ stop. stop ≡ Stop.Limit → intake.new.left ≡ 0) }
    ensures ended { EndsOnce result (λ agreed. agreed ≡ Agreed.Requests) (I.ends input.old) (I.ends input.new) }
    ensures input { I.faults input.old ≤ I.faults input.new }
    ensures output { O.faults output.old ≤ O.faults output.new }
{
    'options: while let Some(option) = next_option(intake, input)? {
        put_answer(option.kind, size, flags, output)?;
        match option.kind {
            OptionKind::Export => return Ok(Agreed::Requests),
            OptionKind::Abort => return Ok(Agreed::Nothing),
            OptionKind::Other(_) => {}
        }
    }
    Ok(Agreed::Nothing)
}

/// Takes the next option, of which the data is let go. `None` where the input ends before it.
fn next_option<I: Source>(intake: &mut Intake, input: &mut I) -> Result<Option<OptionHead>, Stop>
    ensures came { OptionCame (I.left input.old) (I.left input.new) intake.old intake.new result }
    ensures limit { IfErr result (λ stop. stop ≡ Stop.Limit → intake.new.left ≡ 0) }
    ensures ended { EndsOnce result (λ option. IsSome option) (I.ends input.old) (I.ends input.new) }
    ensures fell { I.faults input.old ≤ I.faults input.new }
    ensures cause { TellsTake result (I.faults input.old) (I.faults input.new) }
{
    if !intake.need(input, OPTION_MAGIC)? {
        if intake.count() > 0 {
            return Err(Stop::Broken);
        }
        return Ok(None);
    }
    if !is_option(&intake.ahead()[..OPTION_MAGIC]) {
        return Err(Stop::Broken);
    }
    if !intake.need(input, OPTION_MAGIC + OPTION_HEAD)? {
        return Err(Stop::Broken);
    }
    let option = read_option(&intake.ahead()[OPTION_MAGIC..OPTION_MAGIC + OPTION_HEAD]);
    intake.skip(OPTION_MAGIC + OPTION_HEAD);
    if !intake.pass(input, option.length as u64)? {
        return Err(Stop::Broken);
    }
    Ok(Some(option))
}

/// Puts the answer to an option of this kind.
fn put_answer<O: Sink>(
    kind: OptionKind,
    size: u64,
    flags: ClientFlags,
    output: &mut O,
) -> Result<(), Stop>
    ensures put { OnOk result
        (Got (O.written output.old) (answer_by size flags.no_zeroes kind) (O.written output.new)) }
    ensures part { OnErr result
        (GotPart (O.written output.old) (answer_by size flags.no_zeroes kind)
        (O.written output.new)) }
    ensures fell { O.faults output.old ≤ O.faults output.new }
    ensures cause { TellsPut result (O.faults output.old) (O.faults output.new) }
{
    match kind {
        OptionKind::Export => put_export(size, flags, output),
        OptionKind::Abort => put_reply(OptionKind::Abort, Answer::Acknowledged, output),
        OptionKind::Other(number) => {
            put_reply(OptionKind::Other(number), Answer::Unsupported, output)
        }
    }
}

/// Puts the answer after which requests come.
fn put_export<O: Sink>(size: u64, flags: ClientFlags, output: &mut O) -> Result<(), Stop>
    ensures put { OnOk result
        (Got (O.written output.old) (export_answer size flags.no_zeroes) (O.written output.new)) }
    ensures part { OnErr result
        (GotPart (O.written output.old) (export_answer size flags.no_zeroes)
        (O.written output.new)) }
    ensures fell { O.faults output.old ≤ O.faults output.new }
    ensures cause { TellsPut result (O.faults output.old) (O.faults output.new) }
{
    let mut answer = [0; EXPORT_ANSWER];
    let count = write_export_answer(size, flags, &mut answer);
    put(&answer[..count], output)
}

/// Puts the reply to an option after which no request comes, or another option does.
fn put_reply<O: Sink>(kind: OptionKind, answer: Answer, output: &mut O) -> Result<(), Stop>
    ensures put { OnOk result
        (Got (O.written output.old) (option_reply kind answer) (O.written output.new)) }
    ensures part { OnErr result
        (GotPart (O.written output.old) (option_reply kind answer) (O.written output.new)) }
    ensures fell { O.faults output.old ≤ O.faults output.new }
    ensures cause { TellsPut result (O.faults output.old) (O.faults output.new) }
{
    let mut reply = [0; OPTION_REPLY];
    write_option_reply(kind, answer, &mut reply);
    put(&reply, output)
}

/// Puts bytes.
pub(crate) fn put<O: Sink>(bytes: &[u8], output: &mut O) -> Result<(), Stop>
    ensures put { OnOk result (Got (O.written output.old) bytes.now (O.written output.new)) }
    ensures part { OnErr result (GotPart (O.written output.old) bytes.now (O.written output.new)) }
    ensures fell { O.faults output.old ≤ O.faults output.new }
    ensures cause { TellsPut result (O.faults output.old) (O.faults output.new) }
{
    match output.put(bytes) {
        Ok(()) => Ok(()),
        Err(_) => Err(Stop::Sink),
    }
}
