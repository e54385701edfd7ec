//! The output of `help`. The options and flags of a command are taken from the parser that reads
//! them, so exactly those are shown that the command takes.

ghost use Rattle.std.specs.Prelude.{◌≡◌, ◌++◌, IfOk, string_bytes};
ghost use Rattle.std.specs.List.{flat_map};
ghost use Rattle.clap.specs.Walk.{rule_of};
ghost use Rattle.timing_words.specs.Help as page;
ghost use Rattle.timing_words.specs.Request.{sorts};
ghost use Rattle.timing_words.specs.Parsers.{told_in, word_in};

use crate::command::Command;
use clap::Arg;
use std::alloc::{AllocError as OutOfMemory, Global};

/// Returns the placeholder for the value of an option.
fn value_shape(name: &str) -> &'static str
    ensures { result.now ≡ page.value_shape name.now }
{
    match name {
        "sdp" | "report" => "FILE",
        "tai" => "SECONDS",
        "delay" => "NANOSECONDS",
        "type" => "TYPE",
        "model" => "MODEL",
        _ => "N",
    }
}

/// Returns the meaning of an option or flag, in words.
fn meaning(name: &str) -> &'static str
    ensures { result.now ≡ page.meaning name.now }
{
    match name {
        "sdp" => "the session description",
        "report" => "a report of check --json",
        "workers" => "so many threads judge, 1 to 16",
        "tai" => "are added to the capture timestamps, 0 to 1000",
        "delay" => "are then subtracted from them, 0 to 999999999",
        "media" => "a video of the description, 1 to 64",
        "pair" => "the video of the other flow, 1 to 64",
        "type" => "of the sender: N, NL or W",
        "model" => "that is violated: Bucket, Over or Empty",
        "from" => "the first packet of the interval; judged packets count from 0",
        "to" => "the last packet of the interval",
        "count" => "the packets that are counted",
        "limit" => "the packets that are allowed",
        "serial" => "one thread does all",
        "json" => "JSON is printed",
        "draft" => "a session description to begin with is printed",
        "joined" => "the captures are one, in order",
        "list" => "the delays are printed, and no capture",
        "frames" => "a row stands for a frame, and not for a packet",
        "seq16" => "the extended RTP sequence number is ignored",
        "every" => "a line for every N frames, 1 to 1000000",
        _ => "docs/FORMATS.md says what",
    }
}

/// Returns whether an option or flag of this name is optional in every command that takes it.
fn is_optional(name: &str) -> bool
    ensures { result ≡ page.is_optional name.now }
{
    matches!(
        name,
        "workers"
            | "tai"
            | "delay"
            | "serial"
            | "json"
            | "joined"
            | "list"
            | "draft"
            | "frames"
            | "seq16"
            | "every"
    )
}

/// Returns whether the command's option or flag of this name is optional.
pub fn may_be_missing(command: Command, name: &str) -> bool
    ensures { result ≡ page.may_be_missing command name.now }
{
    is_optional(name) || (command.judges_all() && name == "media")
}

/// Returns an option with the placeholder for its value, or a flag.
fn shown(alloc: Global, name: &str, valued: bool) -> Result<String, OutOfMemory>
    ensures { IfOk result (λ s. string_bytes s ≡ page.shown (record { name = name.now; valued = valued })) }
{
    if valued {
        let value = value_shape(name);
        format!(in alloc; "--{name} {value}")
    } else {
        format!(in alloc; "--{name}")
    }
}

/// Returns an option or flag as in the arguments of a command, in brackets if it is optional.
fn word(alloc: Global, command: Command, name: &str, valued: bool) -> Result<String, OutOfMemory>
    ensures { IfOk result (λ s.
        string_bytes s ≡ page.word command (record { name = name.now; valued = valued })) }
{
    let shown = shown(alloc, name, valued)?;
    if may_be_missing(command, name) {
        format!(in alloc; " [{shown}]")
    } else {
        format!(in alloc; " {shown}")
    }
}

/// Returns an option or flag with its meaning, on a line of its own.
fn told(alloc: Global, name: &str, valued: bool) -> Result<String, OutOfMemory>
    ensures { IfOk result (λ s. string_bytes s ≡ page.told (record { name = name.now; valued = valued })) }
{
    let shown = shown(alloc, name, valued)?;
    let meaning = meaning(name);
    format!(in alloc; "  {shown}: {meaning}\n")
}

/// Returns an argument of a parser as in the arguments of a command; nothing for the positional
/// ones.
fn word_in(alloc: Global, command: Command, arg: &Arg<'_>) -> Result<String, OutOfMemory>
    ensures { IfOk result (λ s. string_bytes s ≡ word_in command (rule_of arg.now)) }
{
    match arg.get_long() {
        Some(name) => word(alloc, command, name, arg.get_num_args().is_none()),
        None => Ok(String::new(alloc)),
    }
}

/// Returns an argument of a parser with its meaning, on a line of its own; nothing for the
/// positional ones.
fn told_in(alloc: Global, arg: &Arg<'_>) -> Result<String, OutOfMemory>
    ensures { IfOk result (λ s. string_bytes s ≡ told_in (rule_of arg.now)) }
{
    match arg.get_long() {
        Some(name) => told(alloc, name, arg.get_num_args().is_none()),
        None => Ok(String::new(alloc)),
    }
}

/// Returns the options and flags of a parser as in the arguments of a command.
fn words_in(alloc: Global, command: Command, args: &[Arg<'_>]) -> Result<String, OutOfMemory>
    ensures { IfOk result (λ s. string_bytes s ≡ flat_map (λ a. word_in command (rule_of a)) args.now) }
{
    let mut text = String::new(alloc);
    for arg in args {
        text.push_str(word_in(alloc, command, arg)?.as_str())?;
    }
    Ok(text)
}

/// Returns the options and flags of a parser with their meanings, each on a line.
fn lines_in(alloc: Global, args: &[Arg<'_>]) -> Result<String, OutOfMemory>
    ensures { IfOk result (λ s. string_bytes s ≡ flat_map (λ a. told_in (rule_of a)) args.now) }
{
    let mut text = String::new(alloc);
    for arg in args {
        text.push_str(told_in(alloc, arg)?.as_str())?;
    }
    Ok(text)
}

/// Returns the options and flags of a command as in its arguments.
fn words_of(alloc: Global, command: Command) -> Result<String, OutOfMemory>
    ensures { IfOk result (λ s. string_bytes s ≡ flat_map (page.word command) (sorts command)) }
{
    let parser = command.parser(alloc)?;
    words_in(alloc, command, parser.get_arguments())
}

/// Returns the options and flags of a command with their meanings, each on a line.
fn lines_of(alloc: Global, command: Command) -> Result<String, OutOfMemory>
    ensures { IfOk result (λ s. string_bytes s ≡ flat_map page.told (sorts command)) }
{
    let parser = command.parser(alloc)?;
    lines_in(alloc, parser.get_arguments())
}

impl Command {
    /// Returns the name of the command.
    pub fn name(self) -> &'static str
        ensures { result.now ≡ page.name_of self }
    {
        match self {
            Command::Check => "check",
            Command::Verify => "verify",
            Command::VerifyReport => "verify-report",
            Command::SelfTest => "selftest",
            Command::Window => "window",
            Command::Shape => "shape",
            Command::Skew => "skew",
            Command::Scan => "scan",
            Command::Measure => "measure",
            Command::Series => "series",
            Command::Sdp => "sdp",
            Command::Page => "page",
            Command::Explain => "explain",
            Command::Watch => "watch",
        }
    }

    /// Returns whether the command judges every video of the description, or one that is chosen.
    fn judges_all(self) -> bool
        ensures { result ≡ page.judges_all self }
    {
        matches!(
            self,
            Command::Check
                | Command::VerifyReport
                | Command::Measure
                | Command::Page
                | Command::Explain
                | Command::Watch
        )
    }

    /// Returns the placeholder for the positional arguments of the command.
    fn names_shape(self) -> &'static str
        ensures { result.now ≡ page.names_shape self }
    {
        match self {
            Command::Check | Command::Verify | Command::VerifyReport => "CAPTURE..",
            Command::SelfTest => "FRAMES",
            Command::Window | Command::Shape => "CAPTURE..",
            Command::Skew => "CAPTURE [CAPTURE]",
            Command::Scan => "CAPTURE",
            Command::Measure
            | Command::Series
            | Command::Page
            | Command::Explain
            | Command::Watch => "CAPTURE..",
            Command::Sdp => "FILE",
        }
    }

    /// Returns what the command does, in words.
    fn about(self) -> &'static str
        ensures { result.now ≡ page.about self }
    {
        match self {
            Command::Check => "judges each video of the description in each capture",
            Command::Verify => {
                "checks one violation that is claimed of a sender, from the capture alone"
            }
            Command::VerifyReport => "checks in that way each violation of a JSON report",
            Command::SelfTest => {
                "makes five captures of so many frames, four of them with a flaw, and judges each"
            }
            Command::Window => {
                "says with which offsets a flow would keep its receiver buffer, for each type"
            }
            Command::Shape => {
                "delays a flow as little as the limits allow, and writes it as a capture"
            }
            Command::Skew => {
                "says how far two flows that carry the same packets are apart, packet by packet"
            }
            Command::Scan => "says what a capture holds, without a description",
            Command::Measure => {
                "says how near each video comes to its limits, when, and where in the frame"
            }
            Command::Series => {
                "lists the numbers of a flow as CSV, packet by packet or frame by frame"
            }
            Command::Sdp => "prints how a description is read, and what of it is passed over",
            Command::Page => "writes the report of a capture as one page with pictures",
            Command::Explain => {
                "says what is wrong with each video and what to do, the likeliest cause first"
            }
            Command::Watch => {
                "prints a line for every second of each video while the capture is read, then its report"
            }
        }
    }

    /// Returns what the command prints, in words.
    fn printed(self) -> &'static str
        ensures { result.now ≡ page.printed self }
    {
        match self {
            Command::Check => {
                "Prints how each capture ends, then for each video whether its packets keep the limits of a narrow,\nnarrow linear or wide sender, and the interval of packets that breaks them first; then the status.\n"
            }
            Command::Verify => "Prints `confirmed`, `not confirmed`, or `not judged` and why.\n",
            Command::VerifyReport => {
                "Prints for each violation `confirmed`, `not confirmed` or `not judged`; then the status.\n"
            }
            Command::SelfTest => {
                "Prints for each capture what is found in it, and the status of its report.\n"
            }
            Command::Window => {
                "Prints for each type the least and the greatest offset in microseconds, and the packets that bind.\n"
            }
            Command::Shape => {
                "Prints a capture in pcap, or with --list each delay in nanoseconds and what causes it.\n"
            }
            Command::Skew => {
                "Prints how each capture ends, how many packets match, and the least and the greatest distance.\n"
            }
            Command::Scan => {
                "Prints how the capture ends, what is ignored, and of each stream who sends to whom, its packets, rate\nand loss; with --json the same as JSON, with --draft a session description. The two exclude each other.\n"
            }
            Command::Measure => {
                "Prints as JSON how the capture ends, and of each judged run what bucket and buffers hold, how near that is\nto each type's limits, when frames begin and end, their RTP timestamps, and the times between packets.\n"
            }
            Command::Series => {
                "Prints a header and for each judged packet when it comes, its place in the frame, and what bucket and\nbuffers hold; with --frames for each frame when it begins and ends, its RTP timestamp and its extremes.\n"
            }
            Command::Sdp => {
                "Prints of each video what is read and which times follow from it, then what is passed over, and likely mistakes:\nan unknown name that is nearly a known one, a comma in place of a semicolon; with --json the same as JSON.\n"
            }
            Command::Page => {
                "Prints one HTML page that needs nothing else: of each video what is judged and measured, in words, pictures and\ntables, and what the capture holds.\n"
            }
            Command::Explain => {
                "Prints for each video a line with its headline, and for each finding a sentence with its numbers and what to do:\nloss, another frame rate, bursts, packets that come early or late, a drift, clocks; with --json the same as JSON.\n"
            }
            Command::Watch => {
                "Prints for every second, or for every N frames, the peaks of bucket and buffers, and how many frames of the run\nso far break each type; gaps and refused flows as they come; and at the end the report of check --serial.\n"
            }
        }
    }

    /// Returns an example of the command, with files of the repository.
    fn example(self) -> &'static str
        ensures { result.now ≡ page.example self }
    {
        match self {
            Command::Check => "./run check --sdp examples/plain.sdp examples/burst.pcap",
            Command::Verify => {
                "./run verify --sdp examples/plain.sdp --media 1 --type N --model Bucket --from 20 --to 24 --count 5 --limit 4 examples/burst.pcap"
            }
            Command::VerifyReport => {
                "./run verify-report --sdp examples/plain.sdp --report report.json examples/burst.pcap"
            }
            Command::SelfTest => "./run selftest 2",
            Command::Window => {
                "./run window --sdp examples/plain.sdp --media 1 examples/plain.pcap"
            }
            Command::Shape => {
                "./run shape --sdp examples/plain.sdp --media 1 --type N --list examples/burst.pcap"
            }
            Command::Skew => {
                "./run skew --sdp examples/plain.sdp --media 1 --pair 1 examples/plain.pcap examples/burst.pcap"
            }
            Command::Scan => "./run scan examples/plain.pcap",
            Command::Measure => "./run measure --sdp examples/plain.sdp examples/burst.pcap",
            Command::Series => {
                "./run series --sdp examples/plain.sdp --media 1 --frames examples/burst.pcap"
            }
            Command::Sdp => "./run sdp examples/plain.sdp",
            Command::Page => "./run page --sdp examples/plain.sdp examples/burst.pcap > burst.html",
            Command::Explain => "./run explain --sdp examples/plain.sdp examples/burst.pcap",
            Command::Watch => {
                "./run watch --sdp examples/plain.sdp --every 1 examples/burst.pcap"
            }
        }
    }
}

/// Returns the arguments of a command as `help` shows them, with the command first. Returns `Err`
/// if memory runs out.
pub fn usage_of(alloc: Global, command: Command) -> Result<String, OutOfMemory>
    ensures { IfOk result (λ s. string_bytes s ≡ page.usage command) }
{
    let words = words_of(alloc, command)?;
    let (name, names) = (command.name(), command.names_shape());
    format!(in alloc; "{name}{words} {names}")
}

/// Returns the arguments of a command and what it does, in two lines.
fn summary_of(alloc: Global, command: Command) -> Result<String, OutOfMemory>
    ensures { IfOk result (λ s. string_bytes s ≡ page.summary command) }
{
    let usage = usage_of(alloc, command)?;
    let about = command.about();
    format!(in alloc; "  {usage}\n      {about}\n")
}

/// Returns the two lines of each of these commands, in order.
fn summaries_in(alloc: Global, commands: &[Command]) -> Result<String, OutOfMemory>
    ensures { IfOk result (λ s. string_bytes s ≡ flat_map page.summary commands.now) }
{
    let mut text = String::new(alloc);
    for command in commands {
        text.push_str(summary_of(alloc, *command)?.as_str())?;
    }
    Ok(text)
}

/// Returns the two lines of each command.
fn summaries(alloc: Global) -> Result<String, OutOfMemory>
    ensures { IfOk result (λ s. string_bytes s ≡ page.summaries) }
{
    summaries_in(
        alloc,
        &[
            Command::Check,
            Command::Verify,
            Command::VerifyReport,
            Command::SelfTest,
            Command::Window,
            Command::Shape,
            Command::Skew,
            Command::Scan,
            Command::Measure,
            Command::Series,
            Command::Sdp,
            Command::Page,
            Command::Explain,
            Command::Watch,
        ],
    )
}

/// Returns the lines before the commands. The first has the version of the program, which is
/// nowhere else in the sources.
fn front_text() -> &'static str
    ensures { result.now ≡ page.front_text }
{
    "st2110_timing 1.0.0: judges the timing of video senders from packet captures, after SMPTE ST 2110-21:2017.\n\nCommands:\n"
}

/// Returns the lines after the commands.
fn back_text() -> &'static str
    ensures { result.now ≡ page.back_text }
{
    "  help [COMMAND]\n      prints this text, or more of one command\n\nExit statuses:\n  0 every declared type passes, or the output was printed\n  1 a declared type fails, or a violation isn't confirmed\n  2 the command line is invalid\n  3 the session description is invalid\n  4 a flow isn't judged as one run, or a capture is malformed\n  5 an input couldn't be read\n  6 a write on standard output failed\n  7 memory ran out\n  9 the report is invalid\n\nRead on in docs/GUIDE.md, docs/FORMATS.md and docs/st2110_timing.1.\n"
}

/// Returns the output of `help` with a command.
fn command_text(alloc: Global, command: Command) -> Result<String, OutOfMemory>
    ensures { IfOk result (λ s. string_bytes s ≡ page.command_text command) }
{
    let usage = usage_of(alloc, command)?;
    let lines = lines_of(alloc, command)?;
    let (about, printed, example) = (command.about(), command.printed(), command.example());
    format!(in alloc; "{usage}\n{about}\n\n{lines}\n{printed}Example: {example}\n")
}

/// Returns the output of `help`. Without a command these are the arguments of all commands, the
/// exit statuses and where to read on. With a command these are its arguments, what it prints, and
/// an example. Returns `Err` if memory runs out.
pub fn help_text(alloc: Global, command: Option<Command>) -> Result<String, OutOfMemory>
    ensures { IfOk result (λ s. string_bytes s ≡ page.help_text command) }
{
    match command {
        Some(command) => command_text(alloc, command),
        None => {
            let summaries = summaries(alloc)?;
            let (front, back) = (front_text(), back_text());
            format!(in alloc; "{front}{summaries}{back}")
        }
    }
}
