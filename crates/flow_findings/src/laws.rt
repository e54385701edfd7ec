//! Laws of the definitions, and examples that are worked by hand. Each function is a theorem: it does nothing, and its
//! clauses are proved.

ghost use Rattle.std.specs.Prelude.{◌≡◌, ◌≤◌, ◌++◌, ◌∷◌, [], ◌||◌, List, None, Some, codes, false, map, neg_ℤ, pos, true, ℕ};
ghost use Rattle.timing_base.specs.Examples.{plain_media};
ghost use Rattle.timing_base.specs.Media.{Media};
ghost use Rattle.timing_base.specs.Verdicts.{Judged};
ghost use Rattle.timing_base.specs.declared.capture.FileNote.TheVariants.{End, Refused};
ghost use Rattle.timing_base.specs.declared.capture.PcapFault.TheVariants.{BadMagic};
ghost use Rattle.timing_base.specs.declared.media.Kind.TheVariants.{N, NL, W};
ghost use Rattle.timing_base.specs.declared.packet.PacketFault.TheVariants.{NoMarker};
ghost use Rattle.timing_base.specs.declared.row.RunVerdict.TheVariants as run_verdict;
ghost use Rattle.timing_base.specs.declared.row.Unjudged.TheVariants as unjudged;
ghost use Rattle.timing_base.specs.declared.row.Verdict.TheVariants as verdict;
ghost use Rattle.sender_params.specs.Worked.{hd_25_interlaced, hd_59_94};
ghost use Rattle.timing_report.specs.Outcomes.{is_pass, passes};
ghost use Rattle.timing_report.specs.Worked.{narrow, two_runs, wide};
ghost use Rattle.timing_report.specs.declared.status.Status.TheVariants as status;
ghost use Rattle.flow_findings.specs.Findings.{absent, burst, drift, elsewhere, gap_findings, limit_findings, media_findings, microseconds, misfits, numbers_findings, pacing, pass, phase, rare, rate, refused, runs_of, tai_twice, unlocked, unmarked, utc};
ghost use Rattle.flow_findings.specs.Gaps.{gap, gaps_of, is_back, is_loss, is_wrap, skipped};
ghost use Rattle.flow_findings.specs.Lists.{AreOfVerdict, has, often};
ghost use Rattle.flow_findings.specs.Numbers.{drain_ns, kind_of, narrowed, period_between, period_ns};
ghost use Rattle.flow_findings.specs.Statuses.{a_run_fails, explained_status, has_judged};
ghost use Rattle.flow_findings.specs.Worked.{burst_found, five_at_once, kept, late_found, late_packets, offsets, rate_50, rise, some_broken, some_passed_over, steps, streams_by_hand, target_at, uneven, with_offset, with_slope};
ghost use Rattle.flow_findings.specs.declared.finding.Finding.TheVariants as finding;
ghost use Rattle.flow_findings.specs.declared.finding.Refusal.TheVariants.{Fault, Gap};
ghost use Rattle.flow_findings.specs.declared.inputs.KnownCaptures.{KnownCaptures};
ghost use Rattle.flow_findings.specs.declared.inputs.KnownFlow.{KnownFlow};
ghost use Rattle.flow_findings.specs.declared.inputs.ShownRun.{ShownRun};
ghost use Rattle.flow_findings.specs.declared.numbers.ShownNumbers.{ShownNumbers};

// ---- laws

/// A list has `pass` exactly if K passes: the declared type, else the class, else W.
pub fn pass_is_a_pass()
    ensures numbers { (m : Media) (c : KnownCaptures) (x : ShownNumbers)
        → has (numbers_findings m c x) (codes "pass") ≡ is_pass x.verdict }
    ensures flow { (session : List Media) (m : Media) (c : KnownCaptures) (flow : KnownFlow) (s : ShownRun)
        → flow.shown ≡ Some s
        → has (media_findings session m c flow) (codes "pass") ≡ passes s.run.judged (kind_of m.declared s.run.judged) }
{}

/// If K passes, a list has none of `burst`, `phase`, `pacing` and `rare`.
pub fn pass_has_no_fault()
    ensures burst { (m : Media) (c : KnownCaptures) (x : ShownNumbers) → AreOfVerdict x → is_pass x.verdict ≡ true
        → has (numbers_findings m c x) (codes "burst") ≡ false }
    ensures phase { (m : Media) (c : KnownCaptures) (x : ShownNumbers) → AreOfVerdict x → is_pass x.verdict ≡ true
        → has (numbers_findings m c x) (codes "phase") ≡ false }
    ensures pacing { (m : Media) (c : KnownCaptures) (x : ShownNumbers) → AreOfVerdict x → is_pass x.verdict ≡ true
        → has (numbers_findings m c x) (codes "pacing") ≡ false }
    ensures rare { (m : Media) (c : KnownCaptures) (x : ShownNumbers) → is_pass x.verdict ≡ true
        → has (numbers_findings m c x) (codes "rare") ≡ false }
{}

/// If K fails, a list has at least one of `burst`, `phase` and `pacing`.
pub fn fail_has_a_fault()
    ensures { (m : Media) (c : KnownCaptures) (x : ShownNumbers) → AreOfVerdict x → is_pass x.verdict ≡ false
        → (has (numbers_findings m c x) (codes "burst") || (has (numbers_findings m c x) (codes "phase")
        || has (numbers_findings m c x) (codes "pacing"))) ≡ true }
{}

/// A list never has both `phase` and `pacing`.
pub fn phase_or_pacing()
    ensures { (m : Media) (c : KnownCaptures) (x : ShownNumbers)
        → has (numbers_findings m c x) (codes "phase") ≡ true
        → has (numbers_findings m c x) (codes "pacing") ≡ false }
{}

/// Each finding stands at most once in a list.
pub fn each_at_most_once()
    ensures { (session : List Media) (m : Media) (c : KnownCaptures) (flow : KnownFlow) (name : List ℕ)
        → often (media_findings session m c flow) name ≤ 1 }
{}

// ---- examples of the flow as a whole

/// The media is absent. A stream to its own target isn't elsewhere, one with two markers may be of anything, and one to
/// another address and another port isn't similar. The fourth stream has the media's address.
pub fn elsewhere_by_hand()
    ensures found { elsewhere (plain_media ∷ []) plain_media (verdict.Unjudged unjudged.Absent) streams_by_hand
        ≡ Some (finding.Elsewhere (target_at 1 50002) 41) }
    ensures not_absent { absent (plain_media ∷ []) plain_media (verdict.Unjudged unjudged.Absent) some_passed_over
        streams_by_hand ≡ None }
    ensures judged { elsewhere (plain_media ∷ []) plain_media (verdict.Judged narrow) streams_by_hand ≡ None }
{}

/// The media is absent, and no stream may be its own.
pub fn absent_by_hand()
    ensures found { absent (plain_media ∷ []) plain_media (verdict.Unjudged unjudged.Absent) some_passed_over []
        ≡ Some (finding.Absent some_passed_over 0) }
    ensures elsewhere { elsewhere (plain_media ∷ []) plain_media (verdict.Unjudged unjudged.Absent) [] ≡ None }
    ensures judged { absent (plain_media ∷ []) plain_media (verdict.Judged narrow) some_passed_over [] ≡ None }
{}

/// A flow that is refused: at record 7 for its packetizer, and at record 9 for a gap.
pub fn refused_by_hand()
    ensures fault { refused (verdict.Unjudged (unjudged.Refused 7 NoMarker))
        ≡ Some (finding.Refused 7 (Fault NoMarker)) }
    ensures gap { refused (verdict.Unjudged (unjudged.Gap 9 12 15)) ≡ Some (finding.Refused 9 (Gap 12 15)) }
    ensures judged { refused (verdict.Judged narrow) ≡ None }
{}

/// A flow without a whole frame, whose stream has 9 markers, or isn't listed; two runs without a whole frame, of which the
/// gap between them is told instead; and two of which one is judged.
pub fn unmarked_by_hand()
    ensures one { unmarked plain_media (verdict.Unjudged (unjudged.NoWholeFrame 10)) 10 streams_by_hand
        ≡ Some (finding.Unmarked 10 (Some 9)) }
    ensures unlisted { unmarked plain_media (verdict.Unjudged (unjudged.NoWholeFrame 10)) 12 []
        ≡ Some (finding.Unmarked 12 None) }
    ensures two { unmarked plain_media (verdict.Runs (
        record { rec = 1; number = 2; expected = None; verdict = run_verdict.NoWholeFrame 3 }
        ∷ record { rec = 9; number = 8; expected = Some 5; verdict = run_verdict.NoWholeFrame 9 } ∷ [])) 12 []
        ≡ None }
    ensures judged { unmarked plain_media (two_runs narrow 22) 50 streams_by_hand ≡ None }
{}

/// The runs of a flow: none came, one without a frame, one judged, one of two judged.
pub fn runs_by_hand()
    ensures none { runs_of (verdict.Unjudged unjudged.Absent) ≡ None }
    ensures unmarked { runs_of (verdict.Unjudged (unjudged.NoWholeFrame 3)) ≡ Some (record { judged = 0; all = 1 }) }
    ensures refused { runs_of (verdict.Unjudged (unjudged.Refused 7 NoMarker)) ≡ Some (record { judged = 0; all = 0 }) }
    ensures judged { runs_of (verdict.Judged narrow) ≡ Some (record { judged = 1; all = 1 }) }
    ensures one_of_two { runs_of (two_runs narrow 22) ≡ Some (record { judged = 1; all = 2 }) }
{}

/// The flows of one media that declares N. A run that fails counts, also beside one that isn't judged.
pub fn statuses_by_hand()
    ensures judged { map has_judged (verdict.Judged narrow ∷ two_runs narrow 22
        ∷ verdict.Unjudged (unjudged.NoWholeFrame 3) ∷ []) ≡ true ∷ true ∷ false ∷ [] }
    ensures fails { map (a_run_fails (Some N)) (verdict.Judged narrow ∷ verdict.Judged wide ∷ two_runs wide 22
        ∷ verdict.Unjudged unjudged.Absent ∷ []) ≡ false ∷ true ∷ true ∷ false ∷ [] }
    ensures undeclared { map (a_run_fails None) (verdict.Judged wide ∷ two_runs narrow 22 ∷ []) ≡ false ∷ false ∷ [] }
    ensures refused { explained_status (plain_media ∷ []) (Refused BadMagic ∷ []) [] ≡ status.NotAllJudged }
    ensures none { explained_status (plain_media ∷ []) (End ∷ []) [] ≡ status.Pass }
{}

// ---- examples of gaps

/// From 65,535 the packet number goes to 0 and not to 65,536: a wrap. From 9 to 12 two are missing, and from 2^32 - 2
/// to 1 also two. From 11 to 10 it goes back. A gap of 2^31 - 1 is the longest loss.
pub fn gaps_by_hand()
    ensures wrap { map (is_wrap false) (gap 65536 0 ∷ gap 65536 1 ∷ gap 131072 0 ∷ []) ≡ true ∷ false ∷ false ∷ [] }
    ensures skipped { map (skipped false) (gap 10 12 ∷ gap 4294967295 1 ∷ gap 12 10 ∷ []) ≡ 2 ∷ 2 ∷ 4294967294 ∷ [] }
    ensures loss { map (is_loss false) (gap 10 12 ∷ gap 0 2147483647 ∷ gap 0 2147483648 ∷ gap 65536 0 ∷ [])
        ≡ true ∷ true ∷ false ∷ false ∷ [] }
    ensures back { map (is_back false) (gap 12 10 ∷ gap 0 2147483647 ∷ gap 0 2147483648 ∷ gap 65536 0 ∷ [])
        ≡ true ∷ false ∷ true ∷ false ∷ [] }
    ensures findings { gap_findings false (gap 65536 0 ∷ gap 10 12 ∷ gap 20 30 ∷ gap 12 10 ∷ [])
        ≡ finding.Wrap 1 ∷ finding.Loss 2 12 ∷ finding.Order 1 ∷ [] }
    ensures none { gap_findings false [] ≡ [] }
    ensures between { gaps_of (two_runs narrow 22) ≡ gap 23 24 ∷ [] }
    ensures refused { gaps_of (verdict.Unjudged (unjudged.Gap 9 12 15)) ≡ gap 12 15 ∷ [] }
{}

/// By the 16-bit sequence numbers alone: from 69,999 to 70,002 two packets are missing. If 70,000 comes behind 70,001,
/// where 70,002 is expected, its number is 70,001 + 65,535 = 135,536. This skips 65,534, so it goes back. If 69,999
/// comes twice, it comes where 70,000 is expected. A gap of 2^15 - 1 is the longest loss. There is no wrap.
pub fn short_gaps_by_hand()
    ensures skipped { map (skipped true) (gap 70000 70002 ∷ gap 70002 135536 ∷ gap 70000 69999 ∷ [])
        ≡ 2 ∷ 65534 ∷ 65535 ∷ [] }
    ensures loss { map (is_loss true) (gap 70000 70002 ∷ gap 0 32767 ∷ gap 0 32768 ∷ gap 70002 135536 ∷ [])
        ≡ true ∷ true ∷ false ∷ false ∷ [] }
    ensures back { map (is_back true) (gap 70000 70002 ∷ gap 0 32767 ∷ gap 0 32768 ∷ gap 70000 69999 ∷ [])
        ≡ false ∷ false ∷ true ∷ true ∷ [] }
    ensures wrap { is_wrap true (gap 65536 0) ≡ false }
    ensures findings { gap_findings true (gap 70000 70002 ∷ gap 70003 135537 ∷ [])
        ≡ finding.Loss 1 2 ∷ finding.Order 1 ∷ [] }
{}

// ---- examples of the run that is shown

/// The type that the findings are of: the declared one, the class, and W without a class.
pub fn kinds_by_hand()
    ensures declared { kind_of (Some NL) wide ≡ NL }
    ensures class { kind_of None wide ≡ W }
    ensures narrow { kind_of None narrow ≡ N }
    ensures none { (j : Judged) → passes j N ≡ false → passes j NL ≡ false → passes j W ≡ false → kind_of None j ≡ W }
{}

/// At 50 frames per second with 20 packets T_GROUP is 20 ms and T_DRAIN 909,090 10/11 ns. At 60000/1001 with 4320
/// packets they are 16,683,333 1/3 ns and 3,510 65/81 ns. A field at 25 is 20 ms. Three frames, of which the last begins
/// 40,000,001 ns after the first, are 20,000,000.5 ns apart in the mean.
pub fn numbers_by_hand()
    ensures period { map period_ns (plain_media ∷ hd_59_94 ∷ hd_25_interlaced ∷ [])
        ≡ 20000000 ∷ 16683333 ∷ 20000000 ∷ [] }
    ensures drain { drain_ns plain_media 20 ≡ 909090 }
    ensures drain_59_94 { drain_ns hd_59_94 4320 ≡ 3510 }
    ensures mean { period_between 7 40000008 3 ≡ Some 20000000 }
    ensures one { period_between 7 7 1 ≡ None }
    ensures narrowed { map narrowed (pos 9223372036854775808 ∷ neg_ℤ (pos 9223372036854775809) ∷ neg_ℤ (pos 5) ∷ [])
        ≡ pos 9223372036854775807 ∷ neg_ℤ (pos 9223372036854775808) ∷ neg_ℤ (pos 5) ∷ [] }
{}

/// A frame at 50 is 1,800 ticks, at 60000/1001 1,501.5. Over 100 frames of 20 ms, which are 2 s, 500 ppm are 1,000,000
/// ns, and 1 ppm is 2,000 ns.
pub fn rate_by_hand()
    ensures steps { rate plain_media (record kept { steps = Some (steps 1501 1502); mean_period = Some 16683333 })
        ≡ Some (finding.Rate rate_50 (Some (steps 1501 1502)) (Some 16683333)) }
    ensures fits { map (misfits hd_59_94) (Some (steps 1501 1502) ∷ Some (steps 1500 1502) ∷ Some (steps 1501 1503)
        ∷ None ∷ []) ≡ false ∷ true ∷ true ∷ false ∷ [] }
    ensures slope { rate plain_media (with_slope (rise 1000000 100))
        ≡ Some (finding.Rate rate_50 (Some (steps 1800 1800)) (Some 20000000)) }
    ensures less { rate plain_media (with_slope (rise 999999 100)) ≡ None }
    ensures none { rate plain_media kept ≡ None }
{}

/// 37 s are 3,330,000 ticks, and a frame 1,800: RTP timestamps are 37 s ahead from 3,328,201 to 3,333,599 ticks, and
/// 37 s behind from -3,333,599 to -3,328,201. They differ from the media clock from 3,600 ticks on.
pub fn clock_by_hand()
    ensures utc_least { map (λ o. utc plain_media (with_offset o)) (pos 3328200 ∷ pos 3328201 ∷ [])
        ≡ None ∷ Some (finding.Utc (pos 3328201)) ∷ [] }
    ensures utc_greatest { map (λ o. utc plain_media (with_offset o)) (pos 3333599 ∷ pos 3333600 ∷ [])
        ≡ Some (finding.Utc (pos 3333599)) ∷ None ∷ [] }
    ensures twice_least { map (λ o. tai_twice plain_media (with_offset o)) (neg_ℤ (pos 3333600) ∷ neg_ℤ (pos 3333599)
        ∷ []) ≡ None ∷ Some (finding.TaiTwice (neg_ℤ (pos 3333599))) ∷ [] }
    ensures twice_greatest { map (λ o. tai_twice plain_media (with_offset o)) (neg_ℤ (pos 3328201) ∷ neg_ℤ (pos 3328200)
        ∷ []) ≡ Some (finding.TaiTwice (neg_ℤ (pos 3328201))) ∷ None ∷ [] }
    ensures unlocked { map (λ o. unlocked plain_media (with_offset o)) (pos 3599 ∷ pos 3600 ∷ neg_ℤ (pos 3599)
        ∷ neg_ℤ (pos 3600) ∷ []) ≡ None ∷ Some (finding.Unlocked (pos 3600)) ∷ None
        ∷ Some (finding.Unlocked (neg_ℤ (pos 3600))) ∷ [] }
    ensures seconds { map (λ o. unlocked plain_media (with_offset o)) (pos 3330000 ∷ neg_ℤ (pos 3330000) ∷ [])
        ≡ None ∷ None ∷ [] }
{}

/// Five packets at once. The bucket then holds one more than C_MAX, the buffer no more than VRX_FULL.
pub fn burst_by_hand()
    ensures found { burst five_at_once ≡ Some burst_found }
    ensures all { limit_findings plain_media five_at_once ≡ burst_found ∷ [] }
    ensures none { burst kept ≡ None }
{}

/// Late packets: with one offset to serve they are early or late as a whole, else they are uneven.
pub fn buffer_by_hand()
    ensures phase { limit_findings plain_media late_packets ≡ finding.Phase late_found ∷ [] }
    ensures equal { pacing (uneven (Some 5) (Some 5)) ≡ None }
    ensures pacing { pacing (uneven (Some 5313) (Some 5312))
        ≡ Some (finding.Pacing (record late_found { offsets = offsets (Some 5313) (Some 5312) })) }
    ensures no_end { pacing (uneven None (Some 5))
        ≡ Some (finding.Pacing (record late_found { offsets = offsets None (Some 5) })) }
    ensures not_phase { map (λ o. phase (uneven None o)) (None ∷ Some 5 ∷ []) ≡ None ∷ None ∷ [] }
    ensures none { map phase (kept ∷ five_at_once ∷ []) ≡ None ∷ None ∷ [] }
{}

/// Over 100 frames of 20 ms, which are 2 s, 1 ppm is 2,000 ns. 2,469 ns are 1.2345 ppm.
pub fn drift_by_hand()
    ensures least { map (λ by. drift plain_media (Some (rise by 100))) (1999 ∷ 2000 ∷ [])
        ≡ None ∷ Some (finding.Drift (pos 10)) ∷ [] }
    ensures greatest { map (λ by. drift plain_media (Some (rise by 100))) (999999 ∷ 1000000 ∷ [])
        ≡ Some (finding.Drift (pos 4999)) ∷ None ∷ [] }
    ensures falls { drift plain_media (Some (record { falls = true; by = 2469; over = 100 }))
        ≡ Some (finding.Drift (neg_ℤ (pos 12))) }
    ensures none { drift plain_media None ≡ None }
{}

/// Two of 250 frames are at most one of a hundred, three are more. Packet 324 is the fifth of the seventeenth frame.
pub fn rare_by_hand()
    ensures found { rare (some_broken 2) ≡ Some (finding.Rare 2 250 17) }
    ensures more { rare (some_broken 3) ≡ None }
    ensures none { map rare (some_broken 0 ∷ kept ∷ []) ≡ None ∷ None ∷ [] }
{}

/// Type N of the two plain frames: at most one packet in the bucket and in the buffer, 444 4/9 ns before its read.
pub fn pass_by_hand()
    ensures found { limit_findings plain_media kept ≡ finding.Pass 1 4 1 8 (pos 444) ∷ [] }
    ensures fails { map pass (five_at_once ∷ late_packets ∷ []) ≡ None ∷ None ∷ [] }
{}

/// T_DRAIN of 20 packets at 50 frames per second is 909,090 10/11 ns.
pub fn microseconds_by_hand()
    ensures found { microseconds true 100 kept ≡ Some (finding.Microseconds 909090) }
    ensures few { microseconds true 99 kept ≡ None }
    ensures not_whole { microseconds false 100 kept ≡ None }
{}
