//! The packets of two media, which are distributed to the takers of their flows.

ghost use Rattle.std.specs.Prelude.{◌≡◌, ⊤, All, IfOk};
ghost use Rattle.frame_group.specs.Expected.{after};
ghost use Rattle.flow_demux.specs.Awaits.{AwaitsExpected};

use super::bank::{frame, open, put};
use super::compare::same;
use capture_gen::examples::HEAD;
use flow_demux::{Demux, FlowTaker, MediaFlow};
use pcap_reader::take_records;
use std::alloc::{AllocError, Global};
use std::test::Fail;
use timing_base::worked::undeclared_to;
use timing_base::{FlowPacket, Rtp};
use timing_outside::OpenFault;

// The packets that a taker was given: their record numbers, and whether each was taken as the expected one.
#[derive(Drop)]
struct Noted {
    given: Vec<(u64, bool)>,
    next: Option<Rtp>,
}

// The packet after the expected one.
fn later(expected: Option<Rtp>) -> Option<Rtp>
    ensures { result ≡ after expected }
{
    let Some(rtp) = expected else {
        return None;
    };
    Some(Rtp {
        number: rtp.number.wrapping_add(1),
        timestamp: rtp.timestamp,
        marker: rtp.marker,
        pt: rtp.pt,
        ssrc: rtp.ssrc,
    })
}

impl FlowTaker for Noted {
    ghost takes = { λ _ _ _ _. ⊤ };

    ghost room = { λ _ _. ⊤ };

    ghost expects = { λ x. x.next };

    ghost none = { λ _ _. tt };

    ghost other = { λ _ _ _ _. tt };

    ghost more = { λ _ _ _ _ _ _ _ _. tt };

    ghost less = { λ _ _ _ _ _. tt };

    fn expected(&self) -> Option<Rtp> {
        self.next
    }

    fn take_next(&mut self, packet: &FlowPacket, _frame: &[u8]) -> Result<bool, AllocError> {
        self.given.push((packet.rec, true))?;
        self.next = later(self.next);
        Ok(true)
    }

    fn take(&mut self, packet: &FlowPacket, _frame: &[u8]) -> Result<(), AllocError> {
        self.given.push((packet.rec, false))?;
        self.next = match packet.rtp {
            Ok(rtp) if !rtp.marker => later(Some(rtp)),
            _ => None,
        };
        Ok(())
    }
}

// The flow to this port, before its first packet.
fn flow_to(alloc: Global, port: u16) -> MediaFlow<Noted>
    ensures { AwaitsExpected (λ (x : Noted). x.next) result }
{
    let noted = Noted {
        given: Vec::new(alloc),
        next: None,
    };
    MediaFlow::new(&undeclared_to(port), noted)
}

// The flows to two ports.
fn flows_to(alloc: Global, ports: (u16, u16)) -> Result<Vec<MediaFlow<Noted>>, AllocError>
    ensures { IfOk result (λ flows. All (AwaitsExpected (λ (x : Noted). x.next)) flows.items) }
{
    let mut flows = Vec::new(alloc);
    flows.push(flow_to(alloc, ports.0))?;
    flows.push(flow_to(alloc, ports.1))?;
    Ok(flows)
}

// The packets that each flow was given.
fn given_of(
    alloc: Global,
    flows: Vec<MediaFlow<Noted>>,
) -> Result<Vec<Vec<(u64, bool)>>, AllocError> {
    let mut all = Vec::new(alloc);
    for flow in flows {
        let MediaFlow { taker, .. } = flow;
        let Noted { given, .. } = taker;
        all.push(given)?;
    }
    Ok(all)
}

// The packets that the flows to these ports are given from this capture.
fn given(
    alloc: Global,
    text: &[u8],
    ports: (u16, u16),
) -> Result<Vec<Vec<(u64, bool)>>, OpenFault> {
    let mut demux = Demux::new(alloc, flows_to(alloc, ports)?)?;
    let mut reader = open(alloc, text, &[])?;
    take_records(&mut reader, 0, &mut demux)?;
    Ok(given_of(alloc, demux.into_flows())?)
}

// Ten packet records: the frames of two flows in turn, with one to port 50009 between them. The fourth packet of the
// first flow has the marker; the fourth packet of the second flow is missing.
fn capture(alloc: Global) -> Result<Vec<u8>, AllocError> {
    let mut text = Vec::from_slice(alloc, &HEAD)?;
    put(&mut text, 1000, &frame(0, 0, false, 0), 56)?;
    put(&mut text, 2000, &frame(1, 0, false, 0), 56)?;
    put(&mut text, 3000, &frame(0, 1, false, 0), 56)?;
    put(&mut text, 4000, &frame(1, 1, false, 0), 56)?;
    put(&mut text, 5000, &frame(0, 2, false, 0), 56)?;
    put(&mut text, 6000, &frame(9, 0, false, 0), 56)?;
    put(&mut text, 7000, &frame(1, 2, false, 0), 56)?;
    put(&mut text, 8000, &frame(0, 3, true, 0), 56)?;
    put(&mut text, 9000, &frame(1, 4, false, 0), 56)?;
    put(&mut text, 10000, &frame(0, 4, false, 1), 56)?;
    Ok(text)
}

// The first three packets show in which order the flows come. After them each packet that continues its frame is taken
// as the expected one.
#[test]
fn two_flows_in_turn(rt: HostRuntime) -> Result<(), Fail> {
    let text = capture(rt.alloc())?;
    let given = given(rt.alloc(), &text, (50_000, 50_001))?;
    let first = [(1, false), (3, false), (5, true), (8, false), (10, false)];
    let second = [(2, false), (4, true), (7, true), (9, false)];
    same(&rt, &given.len(), &2);
    same(
        &rt,
        &given.get(0).map(|all| all.as_slice()),
        &Some(&first[..]),
    );
    same(
        &rt,
        &given.get(1).map(|all| all.as_slice()),
        &Some(&second[..]),
    );
    Ok(())
}

// If two media have the same target, a frame to it goes to both, and no packet is taken as the expected one.
#[test]
fn one_target_of_two_media(rt: HostRuntime) -> Result<(), Fail> {
    let text = capture(rt.alloc())?;
    let given = given(rt.alloc(), &text, (50_000, 50_000))?;
    let want = [(1, false), (3, false), (5, false), (8, false), (10, false)];
    for each in &given {
        same(&rt, &each.as_slice(), &(&want[..]));
    }
    Ok(())
}
