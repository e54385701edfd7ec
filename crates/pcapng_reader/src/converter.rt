//! The conversion of a file to its classic form, step by step.

ghost use Rattle.std.specs.Prelude.{◌≡◌, ◌≤◌, ◌<◌, ◌+◌, ◌-◌, ◌*◌, ◌^◌, ℕ, List, [], ◌++◌, ◌==◌, if◌then◌else◌, IfOk, IfSome, true, length, take, drop, slice_get};
ghost use Rattle.std.specs.Io.{ReadsAtMost};
ghost use Rattle.std.specs.Io.KnownBytes.{Keeps, ReadConsumes};
ghost use Rattle.pcap_reader.specs.WrittenHeads.{file_head};
ghost use Rattle.timing_outside.specs.Causes.{HasCause};
ghost use Rattle.std.specs.Option.{option_map};
ghost use Rattle.pcapng_reader.specs.Classic.{classic, number, kind_of, padded, blocks, go_on};
ghost use Rattle.pcapng_reader.specs.Converting.{fate_by, content_given, options_text, after, IsFate};
ghost use Rattle.pcapng_reader.specs.Stages.{is_start, is_due, rank};
ghost use Rattle.pcapng_reader.specs.Windows.{kept_bytes, held_bytes};
ghost use Rattle.pcapng_reader.specs.Described.{list_of};
ghost use Rattle.pcapng_reader.specs.Wholes.{IsWhole};
ghost use Rattle.pcapng_reader.specs.declared.block.Kind.TheVariants as kind;
ghost use Rattle.pcapng_reader.specs.declared.stage.Stage.TheVariants as stage;
ghost use Rattle.pcapng_reader.specs.declared.stage.Content.TheVariants as content;
ghost use Rattle.pcapng_reader.specs.declared.packet.Fate.TheVariants as fate;
ghost use Rattle.pcapng_reader.specs.declared.step.Step.TheVariants as step;

use crate::block::{Kind, Order, begins_section};
use crate::interfaces::Interfaces;
use crate::packet::{Fate, Whole, fate_of, whole_packet};
use crate::reads::Reads;
use crate::stage::{Body, Content, Found, Stage};
use crate::step::{Gift, Step};
use crate::window::Window;
use pcap_reader::record_head;
use std::alloc::{AllocError, Global};
use timing_outside::Failed;

/// The most bytes of a pcapng file that are read.
const MOST: u64 = 1 << 41;

/// The most bytes that one read asks for.
const READ: u64 = 65_536;

/// The output for a truncated block: less than the header of a packet record.
const CUT: [u8; 1] = [0];

/// The output for a malformed block: the header of a packet record with 2^32 - 1 captured bytes.
const BROKEN: [u8; 16] = [0, 0, 0, 0, 0, 0, 0, 0, 255, 255, 255, 255, 0, 0, 0, 0];

/// The output for a timestamp that a classic capture can't represent: the header of a packet record
/// with 2^32 - 1 nanoseconds.
const LATE: [u8; 16] = [0, 0, 0, 0, 255, 255, 255, 255, 0, 0, 0, 0, 0, 0, 0, 0];

/// Returns the result of a section header with this start. Only the major version 1 is known.
fn section_content(order: Order, head: &[u8]) -> Content
    requires { 16 ≤ length head.now }
    ensures { result ≡ (if number order 2 12 head.now == 1 then content.Section else content.Broken) }
{
    if order.read_u16(head, 12) == 1 {
        Content::Section
    } else {
        Content::Broken
    }
}

/// Returns a size in bytes, rounded up to a multiple of 4.
fn padded(size: u16) -> u32
    ensures value { result ≡ padded size }
    ensures some { size ≤ result }
    ensures few { result ≤ 65536 }
{
    let size = u32::from(size);
    size + (4 - size % 4) % 4
}

/// A converter of a file to its classic form.
#[derive(Drop)]
pub struct Converter {
    window: Window,
    interfaces: Interfaces,
    /// The byte order of the section.
    order: Order,
    /// The number of bytes that may still be read, 0 if the source has ended.
    budget: u64,
    stage: Stage,
    ghost begins: { is_start stage ≡ true → kept_bytes window ≡ file_head },
}

impl Converter {
    ghost use Rattle.pcapng_reader.specs.Texts.{section_of, ahead, text_of, work, HasRoom, Steps, Waits, IsHead, AtBlock, AtOption, Pours, Puts, Gives};

    /// Returns a converter at the start of a file. Returns `Err` if memory runs out.
    pub fn new(alloc: Global) -> Result<Converter, AllocError>
        ensures { IfOk result (λ c. (left : List ℕ) → text_of c left ≡ classic left) }
    {
        let window = Window::new(alloc)?;
        let interfaces = Interfaces::new(alloc)?;
        Ok(Converter {
            window,
            interfaces,
            order: Order::Little,
            budget: MOST,
            stage: Stage::Start,
        })
    }

    /// Ends the output with these bytes.
    fn end(&mut self, bytes: &[u8])
        requires { length bytes.now ≤ 16 }
        ensures text { (left : List ℕ) → text_of self.new left ≡ bytes.now }
        ensures budget { self.new.budget ≡ self.old.budget }
        ensures work { work self.new ≡ length bytes.now }
    {
        self.stage = Stage::Over;
        self.window.keep_only(bytes);
    }

    /// Handles the case that too few bytes are buffered: more have to be read, or the file is
    /// truncated.
    fn wait(&mut self) -> Step
        ensures { Waits self.old self.new result }
    {
        if self.budget > 0 {
            return Step::Hungry;
        }
        self.end(&CUT);
        Step::Moved
    }

    /// Consumes the first `count` bytes of a block, and ignores the others up to its end.
    fn enter(&mut self, order: Order, total: u32, count: u32, content: Content)
        requires some { 0 < count }
        requires held { count ≤ length (held_bytes self.old.window) }
        requires total { count + 4 ≤ total }
        requires stage { self.old.stage ≡ stage.Block }
        ensures text { (left : List ℕ) → text_of self.new left
            ≡ after (record { order = order; total = total; left = total - 4 - count })
            (drop count (ahead self.old left))
            (content_given content order (kept_bytes self.old.window) (section_of self.old)) }
        ensures budget { self.new.budget ≡ self.old.budget }
        ensures work { work self.new < work self.old }
    {
        self.stage = Stage::Passing(
            Body {
                order,
                total,
                left: total - 4 - count,
            },
            content,
        );
        self.window.pass(count as usize);
    }

    /// Checks the first four bytes of a file.
    fn begin(&mut self) -> Step
        requires { self.old.stage ≡ stage.Start }
        ensures { Steps self.old self.new result }
    {
        if self.window.len() < 4 && self.budget > 0 {
            return Step::Hungry;
        }
        if begins_section(self.window.peek()) {
            self.order = Order::Little;
            self.interfaces.clear();
            self.stage = Stage::Block;
        } else {
            self.stage = Stage::Through;
            self.window.keep_front();
        }
        Step::Moved
    }

    /// Passes a file of another format through.
    fn hand_through(&mut self) -> Step
        requires stage { self.old.stage ≡ stage.Through }
        requires given { kept_bytes self.old.window ≡ [] }
        ensures { Steps self.old self.new result }
    {
        if self.window.len() == 0 {
            return Step::Through;
        }
        self.window.keep_front();
        Step::Moved
    }

    /// Reads the start of a section header.
    fn section(&mut self, order: Order, total: u32) -> Step
        requires block { AtBlock order kind.Section total self.old }
        ensures { Steps self.old self.new result }
    {
        if self.window.len() < 16 {
            return self.wait();
        }
        let content = section_content(order, self.window.peek());
        self.enter(order, total, 16, content);
        Step::Moved
    }

    /// Reads the start of an interface description.
    fn interface(&mut self, order: Order, total: u32) -> Step
        requires block { AtBlock order kind.Interface total self.old }
        ensures { Steps self.old self.new result }
    {
        if self.window.len() < 16 {
            return self.wait();
        }
        let found = Found {
            offset: None,
            link: order.read_u16(self.window.peek(), 8),
            resolution: None,
        };
        let body = Body {
            order,
            total,
            left: total - 20,
        };
        self.stage = Stage::Options(body, found);
        self.window.pass(16);
        Step::Moved
    }

    /// Makes the packet record of a packet the output, once its data are buffered.
    fn record(&mut self, order: Order, total: u32, at: u64, len: u32) -> Step
        requires block { AtBlock order kind.Packet total self.old }
        requires held { 28 ≤ length (held_bytes self.old.window) }
        requires fate { fate_by (slice_get (list_of self.old.interfaces)
            (number order 4 8 (held_bytes self.old.window))) order total
            (held_bytes self.old.window) ≡ fate.Record at len }
        requires fits { IsFate total (fate.Record at len) }
        ensures { Steps self.old self.new result }
    {
        let captured = len as usize;
        if self.window.len() < 28 + captured {
            return self.wait();
        }
        let body = Body {
            order,
            total,
            left: total - 32 - len,
        };
        self.stage = Stage::Passing(body, Content::Record);
        self.window.keep_record(&record_head(at, len), captured);
        Step::Moved
    }

    /// Reads the start of a packet block.
    fn packet(&mut self, order: Order, total: u32) -> Step
        requires block { AtBlock order kind.Packet total self.old }
        ensures { Steps self.old self.new result }
    {
        if self.window.len() < 28 {
            return self.wait();
        }
        let number = order.read_u32(self.window.peek(), 8);
        let found = self.interfaces.get(number);
        match fate_of(order, total, found, self.window.peek()) {
            Fate::Broken => {
                self.enter(order, total, 28, Content::Broken);
                Step::Moved
            }
            Fate::Late => {
                self.enter(order, total, 28, Content::Late);
                Step::Moved
            }
            Fate::Record { at, len } => self.record(order, total, at, len),
        }
    }

    /// Reads the start of a block that is ignored.
    fn other(&mut self, order: Order, total: u32) -> Step
        requires block { AtBlock order kind.Other total self.old }
        requires held { 12 ≤ length (held_bytes self.old.window) }
        ensures { Steps self.old self.new result }
    {
        self.enter(order, total, 8, Content::Nothing);
        Step::Moved
    }

    /// Reads the kind and the total length of a block of this byte order.
    fn head(&mut self, order: Order) -> Step
        requires head { IsHead order (kind_of order (held_bytes self.old.window))
            (number order 4 4 (held_bytes self.old.window)) self.old }
        requires held { 12 ≤ length (held_bytes self.old.window) }
        requires stage { self.old.stage ≡ stage.Block }
        requires given { kept_bytes self.old.window ≡ [] }
        ensures { Steps self.old self.new result }
    {
        let kind = Kind::of_block(order, self.window.peek());
        let total = order.read_u32(self.window.peek(), 4);
        if !kind.is_length(total) {
            self.end(&BROKEN);
            return Step::Moved;
        }
        match kind {
            Kind::Section => self.section(order, total),
            Kind::Interface => self.interface(order, total),
            Kind::Packet => self.packet(order, total),
            Kind::Other => self.other(order, total),
        }
    }

    /// Reads the start of a block.
    fn block(&mut self) -> Step
        requires stage { self.old.stage ≡ stage.Block }
        requires given { kept_bytes self.old.window ≡ [] }
        ensures { Steps self.old self.new result }
    {
        if self.window.len() < 12 {
            if self.budget > 0 {
                return Step::Hungry;
            }
            if self.window.len() == 0 {
                self.end(&[]);
            } else {
                self.end(&CUT);
            }
            return Step::Moved;
        }
        match self.order.of_block(self.window.peek()) {
            Some(order) => self.head(order),
            None => {
                self.end(&BROKEN);
                Step::Moved
            }
        }
    }

    /// Consumes an option that was read, of `count` bytes.
    fn pass_option(&mut self, body: Body, found: Found, count: u32)
        requires held { count ≤ length (held_bytes self.old.window) }
        requires some { 0 < count }
        requires left { count ≤ body.left }
        requires stage { rank self.old.stage ≡ 42 }
        ensures text { (left : List ℕ) → text_of self.new left
            ≡ options_text (record { order = body.order; total = body.total; left = body.left - count })
            found (section_of self.old) (drop count (ahead self.old left)) }
        ensures budget { self.new.budget ≡ self.old.budget }
        ensures work { work self.new < work self.old }
    {
        let body = Body {
            order: body.order,
            total: body.total,
            left: body.left - count,
        };
        self.stage = Stage::Options(body, found);
        self.window.pass(count as usize);
    }

    /// Ignores the rest of a block that has this result.
    fn settle(&mut self, body: Body, content: Content)
        requires { rank self.old.stage ≡ 42 }
        ensures text { (left : List ℕ) → text_of self.new left
            ≡ after body (ahead self.old left)
            (content_given content body.order (kept_bytes self.old.window) (section_of self.old)) }
        ensures budget { self.new.budget ≡ self.old.budget }
        ensures work { work self.new < work self.old }
    {
        self.stage = Stage::Passing(body, content);
    }

    /// Reads an option with this code and a value of `size` bytes.
    fn option(&mut self, body: Body, found: Found, code: u16, size: u16) -> Step
        requires option { AtOption body found code size self.old }
        ensures { Steps self.old self.new result }
    {
        if 4 + u32::from(size) > body.left {
            self.settle(body, Content::Broken);
            return Step::Moved;
        }
        let count = body.left.min(4 + padded(size));
        if self.window.len() < count as usize {
            return self.wait();
        }
        let value = &self.window.peek()[4..4 + size as usize];
        match found.with(body.order, code, value) {
            Some(found) => self.pass_option(body, found, count),
            None => self.settle(body, Content::Broken),
        }
        Step::Moved
    }

    /// Reads an option of an interface description, or the end of the options.
    fn options(&mut self, body: Body, found: Found) -> Step
        requires stage { self.old.stage ≡ stage.Options body found }
        requires given { kept_bytes self.old.window ≡ [] }
        ensures { Steps self.old self.new result }
    {
        if body.left < 4 {
            self.settle(body, Content::Interface(found.interface()));
            return Step::Moved;
        }
        if self.window.len() < 4 {
            return self.wait();
        }
        let code = body.order.read_u16(self.window.peek(), 0);
        let size = body.order.read_u16(self.window.peek(), 2);
        if code == 0 {
            self.settle(body, Content::Interface(found.interface()));
            return Step::Moved;
        }
        self.option(body, found, code, size)
    }

    /// Continues with the next block, in a section of this byte order, after a block without
    /// output.
    fn go_on(&mut self, order: Order)
        requires { rank self.old.stage ≡ 41 }
        ensures text { (left : List ℕ) → text_of self.new left
            ≡ blocks (record { order = order; interfaces = list_of self.old.interfaces })
            (ahead self.old left) }
        ensures budget { self.new.budget ≡ self.old.budget }
        ensures work { work self.new ≤ 100 * length (held_bytes self.old.window) + 56 }
    {
        self.stage = Stage::Block;
        self.order = order;
        self.window.forget();
    }

    /// Applies the result of a block after its end was read, and continues with the next block.
    fn finish(&mut self, order: Order, content: Content)
        requires { rank self.old.stage ≡ 41 }
        ensures text { (left : List ℕ) → text_of self.new left
            ≡ go_on (λ next. blocks next (ahead self.old left))
            (content_given content order (kept_bytes self.old.window) (section_of self.old)) }
        ensures budget { self.new.budget ≡ self.old.budget }
        ensures work { work self.new
            ≤ 100 * length (held_bytes self.old.window) + 56 + length (kept_bytes self.old.window) }
    {
        match content {
            Content::Broken => self.end(&BROKEN),
            Content::Late => self.end(&LATE),
            Content::Section => {
                self.interfaces.clear();
                self.go_on(order);
            }
            Content::Interface(interface) => {
                if self.interfaces.has_room() {
                    self.interfaces.push(interface);
                    self.go_on(self.order);
                } else {
                    self.end(&BROKEN);
                }
            }
            Content::Record => self.stage = Stage::Block,
            Content::Nothing => self.go_on(self.order),
        }
    }

    /// Checks the second total length of a block.
    fn close(&mut self, body: Body, content: Content) -> Step
        requires stage { self.old.stage ≡ stage.Passing body content }
        requires left { body.left ≡ 0 }
        ensures { Steps self.old self.new result }
    {
        if self.window.len() < 4 {
            return self.wait();
        }
        if body.order.read_u32(self.window.peek(), 0) == body.total {
            self.window.pass(4);
            self.finish(body.order, content);
        } else {
            self.end(&BROKEN);
        }
        Step::Moved
    }

    /// Consumes bytes of a block that are ignored.
    fn pass(&mut self, body: Body, content: Content) -> Step
        requires { self.old.stage ≡ stage.Passing body content }
        ensures { Steps self.old self.new result }
    {
        if body.left == 0 {
            return self.close(body, content);
        }
        let held = self.window.len();
        if held == 0 {
            return self.wait();
        }
        let count = held.min(body.left as usize);
        let body = Body {
            order: body.order,
            total: body.total,
            left: body.left - count as u32,
        };
        self.stage = Stage::Passing(body, content);
        self.window.pass(count);
        Step::Moved
    }

    /// Does one step, if there is no output to give first.
    fn step(&mut self) -> Step
        requires { is_due self.old.stage ≡ true → kept_bytes self.old.window ≡ [] }
        ensures { Steps self.old self.new result }
    {
        match self.stage {
            Stage::Start => self.begin(),
            Stage::Through => self.hand_through(),
            Stage::Block => self.block(),
            Stage::Options(body, found) => {
                self.window.forget();
                self.options(body, found)
            }
            Stage::Passing(body, content) => self.pass(body, content),
            Stage::Over => Step::Over,
        }
    }

    /// Returns whether the output bytes of the window are to be given at this stage.
    fn is_due(&self) -> bool
        ensures { result ≡ is_due self.now.stage }
    {
        match self.stage {
            Stage::Through | Stage::Block | Stage::Over => true,
            Stage::Start | Stage::Options(..) | Stage::Passing(..) => false,
        }
    }

    /// Copies output bytes to `out` from the place `at` on, and returns the place after them.
    fn pour(&mut self, out: &mut [u8], at: usize) -> usize
        requires { at ≤ length out.old }
        ensures { Pours at out.old out.new self.old self.new result }
    {
        if !self.is_due() {
            return at;
        }
        at + self.window.give(&mut out[at..])
    }

    /// Returns the packet at the start of the buffered bytes, if its whole block is there and gives
    /// a packet record. The section has this byte order.
    #[inline(always)]
    fn whole(&self, order: Order) -> Option<Whole>
        ensures { IfSome result (IsWhole order (list_of self.now.interfaces) (held_bytes self.now.window)) }
    {
        whole_packet(order, &self.interfaces, self.window.peek())
    }

    /// Writes the packet record of a packet to `out` from the place `at` on, and consumes its
    /// block. Returns the place after the record.
    #[inline(always)]
    fn put_record(&mut self, packet: Whole, out: &mut [u8], at: usize) -> usize
        requires stage { self.old.stage ≡ stage.Block }
        requires given { kept_bytes self.old.window ≡ [] }
        requires whole { IsWhole self.old.order (list_of self.old.interfaces)
            (held_bytes self.old.window) packet }
        requires room { at + 16 + packet.len ≤ length out.old }
        ensures puts { Puts at out.old out.new self.old self.new result }
        ensures less { work self.new < work self.old }
    {
        let captured = packet.len as usize;
        let total = packet.total as usize;
        self.window.give_record(
            &record_head(packet.at, packet.len),
            captured,
            total,
            out,
            at,
        );
        at + 16 + captured
    }

    /// Writes the packet records of the packets at the start to `out` from the place `at` on, as
    /// long as their blocks are complete and the records fit. Returns the place after them.
    #[inline(always)]
    fn put_records(&mut self, order: Order, out: &mut [u8], at: usize) -> usize
        requires order { order ≡ self.old.order }
        requires stage { self.old.stage ≡ stage.Block }
        requires given { is_due self.old.stage ≡ true → kept_bytes self.old.window ≡ [] }
        requires room { at ≤ length out.old }
        ensures { Puts at out.old out.new self.old self.new result }
    {
        let mut end = at;
        while let Some(packet) = self.whole(order) {
            if out.len() - end < 16 + packet.len as usize {
                break;
            }
            end = self.put_record(packet, out, end);
        }
        end
    }

    /// Does the work of `put_records` if the next byte begins a block, and otherwise nothing. The
    /// loop is compiled once for each byte order, so that it needn't be checked for each packet.
    fn put_whole(&mut self, out: &mut [u8], at: usize) -> usize
        requires given { is_due self.old.stage ≡ true → kept_bytes self.old.window ≡ [] }
        requires room { at ≤ length out.old }
        ensures { Puts at out.old out.new self.old self.new result }
    {
        let Stage::Block = self.stage else {
            return at;
        };
        match self.order {
            Order::Big => self.put_records(Order::Big, out, at),
            Order::Little => self.put_records(Order::Little, out, at),
        }
    }

    /// Gives the output bytes, and then the packet records of packets that are completely buffered,
    /// which most are, to `out` from the place `at` on. Returns the place after them.
    fn fill(&mut self, out: &mut [u8], at: usize) -> usize
        requires { at ≤ length out.old }
        ensures { Pours at out.old out.new self.old self.new result }
    {
        let end = self.pour(out, at);
        if end < out.len() {
            return self.put_whole(out, end);
        }
        end
    }

    /// Writes the next bytes of the output to the start of `out`, from what is buffered. Returns
    /// their number, or why there are none.
    pub fn give(&mut self, out: &mut [u8]) -> Gift
        ensures { Gives out.new self.old self.new result }
    {
        let mut at = 0;
        loop {
            at = self.fill(out, at);
            if at == out.len() {
                return Gift::Bytes(at);
            }
            let step = self.step();
            if let Step::Moved = step {
                continue;
            }
            return Gift::of(at, step);
        }
    }

    /// Reads once from the source.
    pub fn read_more<S: Reads>(&mut self, source: &mut S) -> Result<(), Failed>
        requires some { 0 < self.old.budget }
        requires room { HasRoom self.old }
        ensures text { Keeps (option_map (text_of self.old) (S.left source.old))
            (option_map (text_of self.new) (S.left source.new)) }
        ensures less { IfOk result (λ _. self.new.budget < self.old.budget) }
        ensures name { S.name source.new ≡ S.name source.old }
        ensures cause { HasCause (S.faults source.old) (S.faults source.new) result }
    {
        let most = READ.min(self.budget) as usize;
        match self.window.read(source, most) {
            Ok(0) => {
                self.budget = 0;
                Ok(())
            }
            Ok(got) => {
                self.budget -= got as u64;
                Ok(())
            }
            Err(failed) => Err(failed),
        }
    }

    /// Writes the next bytes of the output to the start of `buf`, and reads the source if there are
    /// none.
    pub fn give_read<S: Reads>(&mut self, source: &mut S, buf: &mut [u8]) -> Result<usize, Failed>
        ensures same_name { S.name source.new ≡ S.name source.old }
        ensures bound { ReadsAtMost result buf.new }
        ensures bytes { ReadConsumes (option_map (text_of self.old) (S.left source.old))
            (option_map (text_of self.new) (S.left source.new)) result buf.new }
        ensures cause { HasCause (S.faults source.old) (S.faults source.new) result }
    {
        loop {
            match self.give(buf) {
                Gift::Bytes(count) => return Ok(count),
                Gift::Hungry => self.read_more(source)?,
                Gift::Through => return source.read_bytes(buf),
                Gift::Over => return Ok(0),
            }
        }
    }
}
