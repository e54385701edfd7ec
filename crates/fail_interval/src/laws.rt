//! Theorems about the definitions, and the results of flows and captures worked by hand. Each function does nothing;
//! its clauses are the theorem.

ghost use Rattle.std.specs.Prelude.{◌≡◌, ◌≤◌, ◌∷◌, [], ℕ, List, Option, Some, None, true, false, length, map};
ghost use Rattle.timing_base.specs.Numbered.{numbered};
ghost use Rattle.timing_base.specs.Shifts.{FlowOptions, no_options, no_shift};
ghost use Rattle.timing_base.specs.Captures.{Record};
ghost use Rattle.timing_base.specs.Examples.{sent};
ghost use Rattle.timing_base.specs.Keys.{key_of};
ghost use Rattle.timing_base.specs.Media.{IsMedia, Media};
ghost use Rattle.timing_base.specs.Targets.{target_of};
ghost use Rattle.timing_base.specs.declared.fail.Broken.TheVariants.{Bucket, Over, Empty};
ghost use Rattle.timing_base.specs.declared.fail.FailProof.{FailProof};
ghost use Rattle.timing_base.specs.declared.media.Kind.{Kind};
ghost use Rattle.timing_base.specs.declared.packet.PacketFault.TheVariants.{StampBack};
ghost use Rattle.timing_base.specs.declared.row.KindVerdict.TheVariants.{Pass, Fail};
ghost use Rattle.timing_base.specs.declared.row.Unjudged.TheVariants.{Absent, NoWholeFrame, Refused};
ghost use Rattle.sender_params.specs.Keeps.{Confirms, Keeps};
ghost use Rattle.sender_params.specs.Ticks.{NeverFall};
ghost use Rattle.sender_params.specs.Worked.{fail, hd_25_interlaced, hd_50};
ghost use Rattle.udp_rtp.specs.Examples.{group};
ghost use Rattle.udp_rtp.specs.Flow.{flow};
ghost use Rattle.udp_rtp.specs.TwoFlows.{first_capture, joined_captures, next_port, packet_at, second_capture};
ghost use Rattle.fail_interval.specs.Fails.{kind_verdict};
ghost use Rattle.timing_base.specs.declared.key.FlowKey.{FlowKey};
ghost use Rattle.timing_base.specs.declared.packet.FlowPacket.{FlowPacket};
ghost use Rattle.run_meter.specs.Runs.{JudgedPart, NamesFirst, OpenPart, is_broken};
ghost use Rattle.fail_interval.specs.Measured.{JudgeTells, TellsSoFar};
ghost use Rattle.fail_interval.specs.Parts.{open_before, parts_before, run_by};
ghost use Rattle.fail_interval.specs.Stands.{StandsFor};
ghost use Rattle.fail_interval.specs.declared.judge.FlowJudge.{FlowJudge as JudgeValue};
ghost use Rattle.fail_interval.specs.Row.{row};
ghost use Rattle.fail_interval.specs.Rows.{rows_of, rows_of_files};
ghost use Rattle.fail_interval.specs.Worked.{a_key, with_cmax, with_delay, with_seq16, with_tai};
ghost use Rattle.fail_interval.specs.Worked.{four, four_and_tail, four_wrapped, gap_between, ten_at_once};
ghost use Rattle.fail_interval.specs.Worked.{headed_run, judged_row, judged_run, runs_row, twos, unjudged_row};

use run_meter::RunMeter;

/// A sender type passes exactly if the judged packets keep its limits: no interval of packets has more than C_MAX plus
/// the drain ticks in it, and at every instant the buffer holds between nothing and VRX_FULL. If a type fails, the
/// named interval is confirmed. If an interval is confirmed for a list of packets, the list doesn't keep the limits.
pub fn fail_is_confirmed()
    ensures pass { (m : Media) (n : ℕ) (stamps : List ℕ) (kind : Kind) → IsMedia m → 1 ≤ n
        → NeverFall stamps → kind_verdict m n stamps kind ≡ Pass → Keeps m n stamps kind }
    ensures keeps { (m : Media) (n : ℕ) (stamps : List ℕ) (kind : Kind) → IsMedia m → 1 ≤ n
        → NeverFall stamps → Keeps m n stamps kind → kind_verdict m n stamps kind ≡ Pass }
    ensures fail { (m : Media) (n : ℕ) (stamps : List ℕ) (kind : Kind) (f : FailProof) → IsMedia m
        → 1 ≤ n → NeverFall stamps → kind_verdict m n stamps kind ≡ Fail f
        → Confirms m n stamps kind f }
    ensures refutes { (m : Media) (n : ℕ) (stamps : List ℕ) (kind : Kind) (f : FailProof) → IsMedia m
        → 1 ≤ n → NeverFall stamps → Confirms m n stamps kind f → Keeps m n stamps kind → ⊥ }
{}

/// A verdict names the first packet that violates a model of its type; if none does, it is a pass.
pub fn verdict_names_first()
    ensures { (m : Media) (n : ℕ) (stamps : List ℕ) (kind : Kind)
        → NamesFirst (is_broken m n stamps kind) (length stamps) (kind_verdict m n stamps kind) }
{}

/// Each packet comes shortly before its gapped read: 444 4/9 ns in the frames, 222 2/9 ns in the fields. The tail comes
/// at once, and isn't judged. One second that is added is the time of fifty frames, and a flow that is 64 ns late isn't
/// late if 64 ns are subtracted.
pub fn passes_by_hand()
    ensures plain { row (four 764000 10364000 20764000 30364000) a_key hd_50 no_options
        ≡ judged_row (twos 2 4 0 1 1 1 Pass Pass Pass) }
    ensures tail { row (four_and_tail 764000 10364000 20764000 30364000 30364000) a_key hd_50 no_options
        ≡ judged_row (twos 2 4 1 1 1 1 Pass Pass Pass) }
    ensures second_later { row (four 764000 10364000 20764000 30364000) a_key hd_50 (with_tai 1)
        ≡ judged_row (twos 2 4 0 1 1 1 Pass Pass Pass) }
    ensures ahead { row (four 764064 10364064 20764064 30364064) a_key hd_50 (with_delay 64)
        ≡ judged_row (twos 2 4 0 1 1 1 Pass Pass Pass) }
    ensures fields { row (four 782000 10382000 20782000 30382000) a_key hd_25_interlaced no_options
        ≡ judged_row (twos 2 4 0 1 1 1 Pass Pass Pass) }
{}

/// With CMAX=1 two packets at once are too many, for the declared type only. The named interval starts at the latest
/// packet from which on the packets, less the drain ticks, are the count of the bucket.
pub fn bucket_by_hand()
    ensures first { row (four 764000 764000 20764000 30364000) a_key (with_cmax 1) no_options
        ≡ judged_row (twos 2 4 0 2 2 2 (Fail (fail Bucket 0 1 2 1)) Pass Pass) }
    ensures second { row (four 764000 10364000 20764000 20764000) a_key (with_cmax 1) no_options
        ≡ judged_row (twos 2 4 0 2 2 2 (Fail (fail Bucket 2 3 2 1)) Pass Pass) }
    ensures both { row (four 764000 764000 20764000 20764000) a_key (with_cmax 1) no_options
        ≡ judged_row (twos 2 4 0 2 2 2 (Fail (fail Bucket 0 1 2 1)) Pass Pass) }
{}

/// Ten packets at once: the bucket may hold four for N and NL and sixteen for W, and the buffer of N and NL eight. If
/// one packet breaks both limits, the bucket is named.
pub fn over_by_hand()
    ensures bucket { row ten_at_once a_key hd_50 no_options
        ≡ judged_row (twos 5 10 0 10 10 10 (Fail (fail Bucket 0 4 5 4)) (Fail (fail Bucket 0 4 5 4)) Pass) }
    ensures over { row ten_at_once a_key (with_cmax 100) no_options
        ≡ judged_row (twos 5 10 0 10 10 10 (Fail (fail Over 0 8 9 8)) (Fail (fail Bucket 0 4 5 4)) Pass) }
    ensures both { row ten_at_once a_key (with_cmax 8) no_options
        ≡ judged_row (twos 5 10 0 10 10 10 (Fail (fail Bucket 0 8 9 8)) (Fail (fail Bucket 0 4 5 4)) Pass) }
{}

/// A packet less than a nanosecond after gapped read 1, which is at 10,364,444 4/9 ns; linear read 1 is 400,000 ns
/// later. A flow that comes late as a whole is late at its first packet.
pub fn empty_by_hand()
    ensures late { row (four 764000 10364445 20764000 30364000) a_key hd_50 no_options
        ≡ judged_row (twos 2 4 0 1 1 1 (Fail (fail Empty 1 1 1 2)) Pass Pass) }
    ensures all_late { row (four 764445 10364445 20764445 30364445) a_key hd_50 no_options
        ≡ judged_row (twos 2 4 0 1 0 1 (Fail (fail Empty 0 0 0 1)) (Fail (fail Empty 0 0 0 1))
        (Fail (fail Empty 0 0 0 1))) }
    ensures late_field { row (four 782000 10382223 20782000 30382000) a_key hd_25_interlaced no_options
        ≡ judged_row (twos 2 4 0 1 1 1 (Fail (fail Empty 1 1 1 2)) Pass Pass) }
{}

/// Results of flows that aren't judged, with the reason.
pub fn unjudged_by_hand()
    ensures absent { row [] a_key hd_50 no_options ≡ unjudged_row Absent }
    ensures no_marker { row (sent 11 0 6 0 false ∷ sent 12 5 7 0 false ∷ []) a_key hd_50 no_options
        ≡ unjudged_row (NoWholeFrame 2) }
    ensures one_marker { row (sent 11 0 6 0 true ∷ sent 12 5 7 1 false ∷ []) a_key hd_50 no_options
        ≡ unjudged_row (NoWholeFrame 1) }
    ensures refused { row (sent 11 9 6 0 true ∷ sent 12 8 7 1 false ∷ []) a_key hd_50 (with_tai 5)
        ≡ unjudged_row (Refused 12 (StampBack 9 8)) }
{}

/// Runs between gaps: each has its own head, anchor, bucket and tail. The second frame of the first run isn't complete.
pub fn runs_by_hand()
    ensures two { row gap_between a_key hd_50 no_options
        ≡ runs_row (judged_run 11 6 None (twos 1 2 1 1 1 1 Pass Pass Pass))
        (judged_run 15 11 (Some 10) (twos 1 2 0 1 1 1 Pass Pass Pass)) }
    ensures headed { row (sent 11 0 6 0 true ∷ sent 12 5 8 1 false ∷ sent 13 6 9 1 false ∷ []) a_key hd_50 no_options
        ≡ runs_row (headed_run 11 6 None 1) (headed_run 12 8 (Some 7) 2) }
{}

/// A sequence number that wraps where the sender leaves the extended sequence number 0: a gap, unless numbers are
/// counted by sequence numbers alone.
pub fn wrap_by_hand()
    ensures counted { row four_wrapped a_key hd_50 with_seq16
        ≡ judged_row (twos 2 4 0 1 1 1 Pass Pass Pass) }
    ensures as_they_are { row four_wrapped a_key hd_50 no_options
        ≡ runs_row (headed_run 11 65534 None 1) (judged_run 13 0 (Some 65536) (twos 1 2 0 1 1 1 Pass Pass Pass)) }
{}

/// Contents of the meters' output while the flow goes on: a run that ends at a gap, with an incomplete second frame,
/// and the next run.
pub fn open_runs_by_hand()
    ensures in_first { open_before gap_between no_shift 2 ≡ None }
    ensures first { open_before gap_between no_shift 3 ≡ Some (record {
      run = run_by 1 (sent 11 0 6 0 true) 2;
      packets = sent 12 764000 7 1 false ∷ sent 13 10364000 8 1 true ∷ [];
    }) }
    ensures in_second { open_before gap_between no_shift 4 ≡ open_before gap_between no_shift 3 }
    ensures none_over { parts_before hd_50 gap_between no_shift 4 ≡ [] }
    ensures over { map (λ (part : JudgedPart). part.values) (parts_before hd_50 gap_between no_shift 5)
        ≡ twos 1 2 1 1 1 1 Pass Pass Pass ∷ [] }
    ensures in_head { open_before gap_between no_shift 5 ≡ None }
    ensures next { open_before gap_between no_shift 7 ≡ Some (record {
      run = run_by 2 (sent 15 30364000 11 2 true) 2;
      packets = sent 16 40764000 12 3 false ∷ sent 17 50364000 13 3 true ∷ [];
    }) }
{}

/// The output of a judge's meters contains the runs of the packets fed, up to the first fault.
pub fn output_tells_so_far<M: RunMeter>()
    ensures { (past : M.Past) (m : Media) (key : FlowKey) (options : FlowOptions) (judge : JudgeValue M)
        (packets : List FlowPacket) (out : M.Out) → StandsFor m key options judge packets
        → JudgeTells M.stands M.tells past m options packets judge out
        → TellsSoFar M.tells past m options.shift (numbered options.seq16 packets) (length packets) out }
{}

/// The owner of the output may take results out of it, if the meter's `Past` accounts for what was taken.
pub fn output_may_be_taken_out<M: RunMeter>()
    ensures { (past later : M.Past) (m : Media) (options : FlowOptions) (judge : JudgeValue M)
        (packets : List FlowPacket) (out left : M.Out) → ((over : List JudgedPart) (part : Option OpenPart)
        → M.tells past out m options.shift over part → M.tells later left m options.shift over part)
        → JudgeTells M.stands M.tells past m options packets judge out
        → JudgeTells M.stands M.tells later m options packets judge left }
{}

/// Media and files are numbered from 0: the results of two media over two files, and of one media over the fourth file
/// alone.
pub fn rows_are_numbered()
    ensures files { (options : FlowOptions) (a b : Media) (x y : List Record)
        → rows_of_files options 0 (a ∷ b ∷ []) (x ∷ y ∷ [])
        ≡ row (flow x a) (key_of 0 0) a options ∷ row (flow x b) (key_of 0 1) b options
        ∷ row (flow y a) (key_of 1 0) a options ∷ row (flow y b) (key_of 1 1) b options ∷ [] }
    ensures file { (options : FlowOptions) (a : Media) (x : List Record)
        → rows_of options 3 (a ∷ []) x ≡ row (flow x a) (key_of 3 0) a options ∷ [] }
    ensures none { (options : FlowOptions) (x : List Record) → rows_of options 0 [] x ≡ [] }
{}

/// The flows of two captures worked by hand. In the second the first media has no packet. If they are joined, the
/// packet record of the second capture is the sixth.
pub fn flows_by_hand()
    ensures first { (m : Media) → target_of m ≡ group
        → flow first_capture m ≡ packet_at 4 130 ∷ packet_at 5 140 ∷ [] }
    ensures first_next { (m : Media) → target_of m ≡ next_port
        → flow first_capture m ≡ packet_at 1 100 ∷ [] }
    ensures second { (m : Media) → target_of m ≡ group → flow second_capture m ≡ [] }
    ensures second_next { (m : Media) → target_of m ≡ next_port
        → flow second_capture m ≡ packet_at 1 200 ∷ [] }
    ensures joined { (m : Media) → target_of m ≡ group
        → flow joined_captures m ≡ packet_at 4 130 ∷ packet_at 5 140 ∷ [] }
    ensures joined_next { (m : Media) → target_of m ≡ next_port
        → flow joined_captures m ≡ packet_at 1 100 ∷ packet_at 6 200 ∷ [] }
{}

/// The results of the two captures: each file by itself, and both joined.
pub fn rows_by_hand()
    ensures files { (options : FlowOptions) (a b : Media) → target_of a ≡ group → target_of b ≡ next_port
        → rows_of_files options 0 (a ∷ b ∷ []) (first_capture ∷ second_capture ∷ [])
        ≡ row (packet_at 4 130 ∷ packet_at 5 140 ∷ []) (key_of 0 0) a options
        ∷ row (packet_at 1 100 ∷ []) (key_of 0 1) b options
        ∷ row [] (key_of 1 0) a options
        ∷ row (packet_at 1 200 ∷ []) (key_of 1 1) b options ∷ [] }
    ensures joined { (options : FlowOptions) (a b : Media) → target_of a ≡ group → target_of b ≡ next_port
        → rows_of options 0 (a ∷ b ∷ []) joined_captures
        ≡ row (packet_at 4 130 ∷ packet_at 5 140 ∷ []) (key_of 0 0) a options
        ∷ row (packet_at 1 100 ∷ packet_at 6 200 ∷ []) (key_of 0 1) b options ∷ [] }
{}
