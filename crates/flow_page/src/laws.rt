//! Texts of the page worked by hand. Each function does nothing: its clauses are what is proved.

ghost use Rattle.std.specs.Prelude.{◌≡◌, ◌++◌, ◌∷◌, [], ℕ, codes, neg_ℤ, pos, true, false, Some, None};
ghost use Rattle.timing_base.specs.Shifts.{no_shift};
ghost use Rattle.timing_base.specs.declared.capture.FileNote.TheVariants as note;
ghost use Rattle.timing_base.specs.declared.fail.Broken.TheVariants.{Bucket, Empty, Over};
ghost use Rattle.timing_base.specs.declared.media.Kind.TheVariants.{N, NL, W};
ghost use Rattle.sender_params.specs.Worked.{hd_25_interlaced, hd_50, hd_59_94};
ghost use Rattle.flow_measure.specs.Worked.{column};
ghost use Rattle.flow_measure.specs.declared.numbers.KindNumbers.{KindNumbers};
ghost use Rattle.flow_measure.specs.declared.numbers.RunNumbers.{RunNumbers};
ghost use Rattle.flow_page.specs.Around.{around_detail, around_scene, broken_line};
ghost use Rattle.flow_page.specs.Head.{more_text, notes_part, page_start, start_with};
ghost use Rattle.flow_page.specs.Levels.{eye_columns, level_summary, limit_words, run_columns, type_line};
ghost use Rattle.flow_page.specs.Media.{run_cells, type_cells};
ghost use Rattle.flow_page.specs.Numbers.{after_row, level_rows, run_packets, run_peaks, step_row, summary_row};
ghost use Rattle.flow_page.specs.Numbers.{target_row, time_rows, type_row};
ghost use Rattle.flow_page.specs.Often.{below_bars, class_bars, held_in, width_bars};
ghost use Rattle.flow_page.specs.Peaks.{peak_text};
ghost use Rattle.flow_page.specs.Times.{epoch_text, file_time, span_text, time_text};
ghost use Rattle.flow_page.specs.Timings.{drift_text, least_step, line_words, most_step, period_of, steps_line};
ghost use Rattle.flow_page.specs.Timings.{timing_columns, timing_lines, timing_summary, timing_title};
ghost use Rattle.flow_page.specs.Words.{counted, offsets_text, troff_words, type_words};
ghost use Rattle.flow_page.specs.Shown.{type_shown};
ghost use Rattle.flow_page.specs.Worked.{apart, falling, five_from, hardly, kept, late, numbers_apart, region_from};
ghost use Rattle.flow_page.specs.Worked.{scattered, steps, verdict_apart};
ghost use Rattle.flow_page.specs.declared.chart.bars.BarName.TheVariants.{Below, From};
ghost use Rattle.flow_page.specs.declared.chart.lines.LineName.TheVariants as line;
ghost use Rattle.flow_page.specs.declared.levels.Level.TheVariants as level;
ghost use Rattle.flow_page.specs.declared.shown.Curves.{Curves};
ghost use Rattle.flow_page.specs.declared.shown.Region.{Region};
ghost use Rattle.flow_page.specs.declared.timings.Timing.TheVariants.{First, Last, Latency, Offset};

/// How captures end: one, and two of which the second ends within the packet record at byte 40. The title and the
/// heading name the first one, and say how many more there are.
#[tactic(auto, unfolding(crate::proofs::Numerals::numerals, crate::proofs::lemmas::chart::Numerals::numerals))]
pub fn captures_by_hand()
    ensures alone { notes_part (codes "a.pcap" ∷ []) (note.End ∷ [])
        ≡ codes "<p>By SMPTE ST 2110-21. How the capture ends: end.</p>\n" }
    ensures joined { notes_part (codes "a.pcap" ∷ codes "<b>.pcap" ∷ []) (note.End ∷ note.Cut 40 ∷ [])
        ≡ codes "<p>By SMPTE ST 2110-21. How the captures end:</p>\n<ol><li><bdi>a.pcap</bdi>: end</li>"
        ++ codes "<li><bdi>&lt;b&gt;.pcap</bdi>: cut at 40</li></ol>\n" }
    ensures no_more { page_start (codes "a" ∷ []) ≡ start_with (codes "a") 0 }
    ensures two_more { page_start (codes "a" ∷ codes "b" ∷ codes "c" ∷ []) ≡ start_with (codes "a") 2 }
    ensures words { more_text 2 ≡ codes " and 2 more" }
    ensures none { more_text 0 ≡ [] }
{}

/// A capture timestamp as the file has it: without a shift, with seconds that were added, and with a delay that was
/// subtracted after them.
#[tactic(auto, unfolding(crate::proofs::Numerals::numerals, crate::proofs::Numerals::times, crate::proofs::Numerals::rates))]
pub fn epochs_by_hand()
    ensures plain { epoch_text (file_time no_shift 1600000000001764000) ≡ codes "1600000000.001764000" }
    ensures seconds { epoch_text (file_time (record { tai = 37; delay = 0 }) 1600000037000000009)
        ≡ codes "1600000000.000000009" }
    ensures delayed { epoch_text (file_time (record { tai = 37; delay = 999999999 }) 1600000036000000010)
        ≡ codes "1600000000.000000009" }
{}

/// The result in words of a type that passes, and of one that fails.
#[tactic(auto, unfolding(crate::proofs::Numerals::numerals, crate::proofs::Numerals::times, crate::proofs::Numerals::rates))]
pub fn words_by_hand()
    ensures pass { type_words kept (codes "frame") no_shift
        ≡ codes "<li><span class=\"pass\">&#10003; pass</span> <b>N</b>: bucket 1 of 4, buffer 1 of 8; each packet "
        ++ codes "may come 0.444 &#181;s later.</li>\n" }
    ensures fail { type_words late (codes "frame") no_shift
        ≡ codes "<li><span class=\"fail\">&#10007; fail</span> <b>N</b>: bucket 1 of 4, buffer 1 of 8; broken by 2 "
        ++ (codes "of 2 frames; 38 packets too late for the reads, first packet 1, at worst 759.556 &#181;s late. "
        ++ (codes "Packet 1, with which the verdict's fail ends, is record 3, capture timestamp "
        ++ (codes "1600000000.001764000. With an offset of 1524 to 8764 &#181;s its buffer would pass; the "
        ++ codes "description's is 764.444 &#181;s.</li>\n"))) }
{}

/// The offsets of a type: some, one alone, none on a side, and no offset for both sides. A type whose bucket fails has no
/// such text.
#[tactic(auto, unfolding(crate::proofs::Numerals::numerals))]
pub fn offsets_by_hand()
    ensures some { offsets_text (Some 5313) (Some 6102) 637674
        ≡ codes ". With an offset of 5313 to 6102 &#181;s its buffer would pass; the description's is 637.674 &#181;s" }
    ensures alone { offsets_text (Some 7) (Some 7) 1664000
        ≡ codes ". With an offset of 7 to 7 &#181;s its buffer would pass; the description's is 1664 &#181;s" }
    ensures apart { offsets_text (Some 8) (Some 7) 1000 ≡ codes ". With no offset would its buffer pass" }
    ensures absent { offsets_text None (Some 7) 1000 ≡ codes ". With no offset would its buffer pass" }
    ensures bucket { troff_words apart ≡ [] }
{}

/// A noun with the counts 1, 38, 0 and -1.
#[tactic(auto, unfolding(crate::proofs::Numerals::numerals, crate::proofs::Numerals::times, crate::proofs::Numerals::rates))]
pub fn counts_by_hand()
    ensures one { counted (pos 1) (codes "packet") ≡ codes "1 packet" }
    ensures several { counted (pos 38) (codes "packet") ≡ codes "38 packets" }
    ensures none { counted (pos 0) (codes "tick") ≡ codes "0 ticks" }
    ensures below { counted (neg_ℤ (pos 1)) (codes "packet") ≡ codes "-1 packets" }
{}

/// The drift of first packets at 50 frames per second. Those of 16 frames come 10,000 ns earlier each time, and fall by
/// 140,000 ns over the 14 frames, 280 ms, from the first column to the last: 500 ppm. In eight frames 1 ns over seven
/// frames is less than a tenth of a ppm, and has no sign. A change of 5,000 ns doesn't stand out of first packets that
/// scatter by 10,000 ns. Seven frames have no drift.
#[tactic(auto, unfolding(crate::proofs::Numerals::numerals, crate::proofs::Numerals::times, crate::proofs::Numerals::rates))]
pub fn drifts_by_hand()
    ensures falls { drift_text hd_50 16 falling ≡ codes "; drift -500 ppm" }
    ensures hardly { drift_text hd_50 8 hardly ≡ codes "; drift 0 ppm" }
    ensures scatters { drift_text hd_50 16 scattered ≡ codes "; no drift above the scatter of 10 &#181;s" }
    ensures few { drift_text hd_50 7 hardly ≡ [] }
{}

/// Steps of the RTP timestamp. At 50 frames per second 1,800 ticks fit, and 3,600 make half the rate. A step that is too
/// small doesn't fit, even if the greatest fits, and the other way round. At 60000/1001 frames per second steps are 1,501
/// or 1,502 ticks. An interlaced video at 25 frames per second has 50 fields.
#[tactic(auto, unfolding(crate::proofs::Numerals::numerals, crate::proofs::Numerals::times, crate::proofs::Numerals::rates))]
pub fn steps_by_hand()
    ensures fits { steps_line hd_50 2 (Some (steps 1800 1800 1800)) ≡ [] }
    ensures one { steps_line hd_50 1 None ≡ [] }
    ensures wrong { steps_line hd_50 3 (Some (steps 3600 3600 7200))
        ≡ codes "<p class=\"fail\">&#10007; The RTP timestamp goes on by 3600 to 3600 ticks from frame to frame, which "
        ++ (codes "makes 25.000 frames per second, where the description's rate of 50/1 makes 50.000 frames per second, "
        ++ codes "by 1800 to 1800 ticks.</p>\n") }
    ensures low { steps_line hd_50 3 (Some (steps 1799 1800 3599))
        ≡ codes "<p class=\"fail\">&#10007; The RTP timestamp goes on by 1799 to 1800 ticks from frame to frame, which "
        ++ (codes "makes 50.013 frames per second, where the description's rate of 50/1 makes 50.000 frames per second, "
        ++ codes "by 1800 to 1800 ticks.</p>\n") }
    ensures high { steps_line hd_50 3 (Some (steps 1800 1801 3601))
        ≡ codes "<p class=\"fail\">&#10007; The RTP timestamp goes on by 1800 to 1801 ticks from frame to frame, which "
        ++ (codes "makes 49.986 frames per second, where the description's rate of 50/1 makes 50.000 frames per second, "
        ++ codes "by 1800 to 1800 ticks.</p>\n") }
    ensures uneven { steps_line hd_59_94 3 (Some (steps 1501 1502 3003)) ≡ [] }
    ensures fields { steps_line hd_25_interlaced 3 (Some (steps 1800 1800 3600)) ≡ [] }
    ensures field { steps_line hd_25_interlaced 3 (Some (steps 3600 3600 7200))
        ≡ codes "<p class=\"fail\">&#10007; The RTP timestamp goes on by 3600 to 3600 ticks from field to field, which "
        ++ (codes "makes 12.500 frames per second, where the description's rate of 25/1 makes 25.000 frames per second, "
        ++ codes "by 1800 to 1800 ticks.</p>\n") }
{}

/// Times in the unit of an axis: with ticks 2 ms, 2 microseconds and 2 ns apart. A frame takes 20 ms at 50 frames per
/// second, and a field of 25 frames per second as well. In sentences times below a millisecond are in microseconds.
#[tactic(auto, unfolding(crate::proofs::Numerals::numerals, crate::proofs::Numerals::times, crate::proofs::Numerals::rates))]
pub fn times_by_hand()
    ensures milli { time_text 2000000 (pos 13712095) ≡ codes "13.712095 ms" }
    ensures milli_three { time_text 2000000 (pos 19004000) ≡ codes "19.004 ms" }
    ensures milli_whole { time_text 2000000 (neg_ℤ (pos 20000000)) ≡ codes "-20 ms" }
    ensures micro { time_text 2000 (pos 764444) ≡ codes "764.444 &#181;s" }
    ensures micro_below { time_text 2000 (neg_ℤ (pos 1005)) ≡ codes "-1.005 &#181;s" }
    ensures nano { time_text 2 (pos 764444) ≡ codes "764444 ns" }
    ensures offset { line_words 2000 764444 20000000 First ≡ codes "; TR_OFFSET 764.444 &#181;s" }
    ensures group { line_words 5000000 764444 20000000 Last ≡ codes "; T_GROUP 20 ms" }
    ensures none { line_words 1 764444 20000000 Offset ≡ [] }
    ensures period { period_of hd_50 ≡ 20000000 }
    ensures field { period_of hd_25_interlaced ≡ 20000000 }
    ensures short { span_text 999999 ≡ codes "999.999 &#181;s" }
    ensures long { span_text 1000000 ≡ codes "1 ms" }
{}

/// Where a picture has its greatest number: at the first packet that has it, or in the first of the columns that reach it.
/// The last column of ten places by four has two.
#[tactic(auto, unfolding(crate::proofs::Numerals::numerals, crate::proofs::Numerals::times, crate::proofs::Numerals::rates))]
pub fn peaks_by_hand()
    ensures each { peak_text (codes "packet") (record { start = 0; count = 3; each = 1 }) (pos 5)
        (column (pos 1) (pos 4) ∷ column (pos 1) (pos 5) ∷ column (pos 5) (pos 5) ∷ [])
        ≡ codes ", first at packet 1" }
    ensures wide { peak_text (codes "place") (record { start = 0; count = 10; each = 4 }) (pos 5)
        (column (pos 1) (pos 4) ∷ column (pos 1) (pos 4) ∷ column (pos 1) (pos 5) ∷ [])
        ≡ codes ", first within places 8 to 9" }
{}

/// The cells of the table of media: the peaks of a type before their limits, the bucket before the buffer; and of a run of
/// an interlaced video the packets per field, the fields, the class and the declared type.
#[tactic(auto, unfolding(crate::proofs::Numerals::numerals, crate::proofs::Numerals::times, crate::proofs::Numerals::rates))]
pub fn media_by_hand()
    ensures peaks { type_cells apart
        ≡ codes "<td><span class=\"fail\">&#10007; fail</span></td><td>5 of 4</td><td>9 of 8</td>" }
    ensures run { run_cells hd_25_interlaced verdict_apart
        ≡ codes "</td><td>20 per field</td><td>3 fields</td><td>narrow linear</td><td>N</td>" }
{}

/// The cells of the tables of types and runs, all with different numbers.
#[tactic(auto, unfolding(crate::proofs::Numerals::numerals, crate::proofs::Numerals::times, crate::proofs::Numerals::rates))]
pub fn tables_by_hand()
    ensures row { type_row apart
        ≡ codes "<tr><th>NL</th><td><span class=\"fail\">&#10007; fail</span></td><td>2</td><td>4</td><td>5</td>"
        ++ (codes "<td>11</td><td>16</td><td>8</td><td>9</td><td>12</td><td>17</td><td>13</td><td>14</td><td>18</td>"
        ++ codes "<td>-15</td></tr>\n") }
    ensures packets { run_packets verdict_apart
        ≡ codes "<td>60</td><td>20</td><td>3</td><td>1</td><td>2</td>" }
    ensures peaks { run_peaks verdict_apart ≡ codes "<td>narrow linear</td><td>5</td><td>6</td><td>7</td></tr>\n" }
{}

/// The words on a type that fails in each way, all with different numbers.
#[tactic(auto, unfolding(crate::proofs::Numerals::numerals, crate::proofs::Numerals::times, crate::proofs::Numerals::rates))]
pub fn fails_by_hand()
    ensures { type_words apart (codes "field") no_shift
        ≡ codes "<li><span class=\"fail\">&#10007; fail</span> <b>NL</b>: bucket 5 of 4, buffer 9 of 8; broken by 2 of 3 "
        ++ (codes "fields; after 11 packets the bucket is above its limit, first after packet 16; after 12 packets the "
        ++ (codes "buffer is above its limit, first after packet 17; 14 packets too late for the reads, first packet 18, "
        ++ (codes "at worst 0.015 &#181;s late. Packet 22, with which the verdict's fail ends, is record 19, capture "
        ++ codes "timestamp 1600000000.001764000.</li>\n"))) }
{}

/// What the pictures of levels show: bucket, gapped and linear reads each have their own numbers, columns and limits. N has
/// a limit for gapped reads alone, NL for linear ones.
#[tactic(auto, unfolding(crate::proofs::Numerals::numerals))]
pub fn levels_by_hand()
    ensures bucket { (n : RunNumbers) → level_summary (numbers_apart n) level.Bucket ≡ five_from 10 }
    ensures gapped { (n : RunNumbers) → level_summary (numbers_apart n) level.Gapped ≡ five_from 20 }
    ensures linear { (n : RunNumbers) → level_summary (numbers_apart n) level.Linear ≡ five_from 30 }
    ensures runs { (c : Curves) → (run_columns c level.Bucket ≡ c.bucket) × (run_columns c level.Gapped ≡ c.gapped)
        × (run_columns c level.Linear ≡ c.linear) }
    ensures eyes { (c : Curves) → (eye_columns c level.Bucket ≡ c.bucket_eye)
        × (eye_columns c level.Gapped ≡ c.gapped_eye) × (eye_columns c level.Linear ≡ c.linear_eye) }
    ensures bucket_limit { limit_words level.Bucket apart ≡ codes "; NL at most 4, above it first after packet 16" }
    ensures linear_limit { limit_words level.Linear apart ≡ codes "; NL at most 8, above it first after packet 17" }
    ensures no_gapped { limit_words level.Gapped apart ≡ [] }
    ensures gapped_limit { limit_words level.Gapped kept ≡ codes "; N at most 8" }
    ensures no_linear { limit_words level.Linear kept ≡ [] }
    ensures bucket_line { type_line level.Bucket apart ≡ record { name = line.NarrowLinear; at = pos 4 } ∷ [] }
    ensures linear_line { type_line level.Linear apart ≡ record { name = line.NarrowLinear; at = pos 8 } ∷ [] }
{}

/// What the pictures of frames and fields show.
#[tactic(auto, unfolding(crate::proofs::Numerals::numerals))]
pub fn timings_by_hand()
    ensures first { (n : RunNumbers) → timing_summary (numbers_apart n) First ≡ five_from 40 }
    ensures last { (n : RunNumbers) → timing_summary (numbers_apart n) Last ≡ five_from 50 }
    ensures offset { (n : RunNumbers) → timing_summary (numbers_apart n) Offset ≡ five_from 80 }
    ensures latency { (n : RunNumbers) → timing_summary (numbers_apart n) Latency ≡ five_from 90 }
    ensures packets { (c : Curves) → (timing_columns c First ≡ c.first) × (timing_columns c Last ≡ c.last) }
    ensures stamps { (c : Curves) → (timing_columns c Offset ≡ c.offset) × (timing_columns c Latency ≡ c.latency) }
    ensures target { timing_lines 764444 20000000 First ≡ record { name = line.Offset; at = pos 764444 } ∷ [] }
    ensures period { timing_lines 764444 20000000 Last ≡ record { name = line.Period; at = pos 20000000 } ∷ [] }
    ensures none { timing_lines 764444 20000000 Offset ≡ [] }
    ensures title { timing_title (codes "field") Last ≡ codes "Last packet of each field" }
{}

/// The rows of the table of numbers, all with different numbers. Bucket and buffer have no first and last.
#[tactic(auto, unfolding(crate::proofs::Numerals::numerals))]
pub fn numbers_by_hand()
    ensures levels { (n : RunNumbers) → level_rows (numbers_apart n)
        ≡ codes "<tr><th>packets in the bucket</th><td>10</td><td>11</td><td></td><td></td><td>12</td></tr>\n"
        ++ (codes "<tr><th>packets in the buffer, gapped reads</th><td>20</td><td>21</td><td></td><td></td><td>22</td>"
        ++ (codes "</tr>\n<tr><th>packets in the buffer, linear reads</th><td>30</td><td>31</td><td></td><td></td>"
        ++ codes "<td>32</td></tr>\n")) }
    ensures times { (n : RunNumbers) → time_rows (codes "field") (numbers_apart n)
        ≡ after_row (codes "first packet") (codes "field") (codes "ns") (five_from 40) ++ (target_row 60
        ++ (after_row (codes "last packet") (codes "field") (codes "ns") (five_from 50)
        ++ (step_row (Some (five_from 70))
        ++ (after_row (codes "RTP timestamp") (codes "field") (codes "ticks") (five_from 80)
        ++ summary_row (codes "from RTP timestamp to first packet, ticks") (five_from 90))))) }
    ensures after { after_row (codes "last packet") (codes "field") (codes "ns") (five_from 50)
        ≡ codes "<tr><th>last packet after the field begins, ns</th><td>50</td><td>51</td><td>53</td><td>54</td>"
        ++ codes "<td>52</td></tr>\n" }
    ensures whole { summary_row (codes "from RTP timestamp to first packet, ticks") (five_from 90)
        ≡ codes "<tr><th>from RTP timestamp to first packet, ticks</th><td>90</td><td>91</td><td>93</td><td>94</td>"
        ++ codes "<td>92</td></tr>\n" }
    ensures step { step_row (Some (five_from 70))
        ≡ codes "<tr><th>step of the RTP timestamp, ticks</th><td>70</td><td>71</td><td></td><td></td><td></td></tr>\n" }
    ensures target { target_row 60
        ≡ codes "<tr><th>target of the first packet (TR_OFFSET), ns</th><td colspan=\"5\">60</td></tr>\n" }
{}

/// The values of a type: its peaks are those of the verdict, and its margins those of its reads. Those of N are gapped, those
/// of NL and W linear.
pub fn types_by_hand()
    ensures narrow { (n : RunNumbers) (k : KindNumbers)
        → ((type_shown verdict_apart (numbers_apart n) N k).buffer_peak ≡ 6)
        × ((type_shown verdict_apart (numbers_apart n) N k).slack ≡ pos 25)
        × ((type_shown verdict_apart (numbers_apart n) N k).late ≡ 26) }
    ensures linear { (n : RunNumbers) (k : KindNumbers)
        → ((type_shown verdict_apart (numbers_apart n) NL k).buffer_peak ≡ 7)
        × ((type_shown verdict_apart (numbers_apart n) NL k).slack ≡ pos 35)
        × ((type_shown verdict_apart (numbers_apart n) NL k).late ≡ 36) }
    ensures bucket { (n : RunNumbers) (k : KindNumbers)
        → ((type_shown verdict_apart (numbers_apart n) W k).bucket_peak ≡ 5)
        × ((type_shown verdict_apart (numbers_apart n) W k).groups ≡ 3) }
    ensures limits { (n : RunNumbers) (k : KindNumbers)
        → ((type_shown verdict_apart (numbers_apart n) W k).c_max ≡ k.bucket.limit)
        × ((type_shown verdict_apart (numbers_apart n) W k).vrx_full ≡ k.buffer.limit) }
    ensures held { (n : RunNumbers) → (held_in (numbers_apart n) N ≡ five_from 20) × (held_in (numbers_apart n) NL ≡ five_from 30)
        × (held_in (numbers_apart n) W ≡ five_from 30) }
{}

/// The bars of histograms: bins of twelve numbers each, and classes that double, of which the first has the zeros.
pub fn bars_by_hand()
    ensures bins { width_bars 12 0 (5 ∷ 6 ∷ 7 ∷ []) ≡ record { name = From 0; count = 5 }
        ∷ record { name = From 12; count = 6 } ∷ record { name = From 24; count = 7 } ∷ [] }
    ensures classes { class_bars 0 (5 ∷ 6 ∷ 7 ∷ 8 ∷ []) ≡ record { name = From 0; count = 5 }
        ∷ record { name = From 1; count = 6 } ∷ record { name = From 2; count = 7 }
        ∷ record { name = From 4; count = 8 } ∷ [] }
    ensures below { below_bars true 9 ≡ record { name = Below; count = 9 } ∷ [] }
    ensures none { below_bars false 9 ≡ [] }
{}

/// The picture around a violation from packet 21 to 22: its line by the model that breaks, and where its packets stand if
/// the picture begins with packet 5 or with packet 22.
#[tactic(auto, unfolding(crate::proofs::Numerals::numerals))]
pub fn around_by_hand()
    ensures bucket { broken_line apart Bucket ≡ record { name = line.NarrowLinear; at = pos 4 } }
    ensures over { broken_line apart Over ≡ record { name = line.NarrowLinear; at = pos 8 } }
    ensures empty { broken_line apart Empty ≡ record { name = line.Empty; at = pos 0 } }
    ensures shade { (r : Region) → (around_scene (region_from 5 Over r)).shade ≡ Some (record { from = 16; to = 17 }) }
    ensures cut { (r : Region) → (around_scene (region_from 22 Over r)).shade ≡ Some (record { from = 0; to = 0 }) }
    ensures starts { (r : Region) → (around_scene (region_from 5 Over r)).across.start ≡ 5 }
    ensures detail { (r : Region) → around_detail (region_from 5 Over r)
        ≡ codes "packets 21 to 22: count 23, limit 24" }
    ensures ahead { (r : Region) → around_detail (region_from 22 Over r)
        ≡ codes "packets 21 to 22: count 23, limit 24; the first 1 of them come before the picture" }
{}
