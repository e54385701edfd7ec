//! Laws of the text of a report, and reports that are read by hand. Each function is a theorem: it does nothing, and
//! its clauses are proved.

ghost use Rattle.std.specs.Prelude.{◌≡◌, ◌++◌, ◌∷◌, [], List, All, IsUtf8, None, Some, codes, false, length, map, ℕ};
ghost use Rattle.std.specs.List.{list_any};
ghost use Rattle.serde_json.specs.Data.{boolean, string};
ghost use Rattle.timing_base.specs.Jobs.{CheckJob};
ghost use Rattle.timing_base.specs.Judged.{judged as judged_of_packets, refused};
ghost use Rattle.timing_base.specs.Media.{Media};
ghost use Rattle.timing_base.specs.Shifts.{FlowOptions};
ghost use Rattle.timing_base.specs.declared.capture.FileNote.{FileNote};
ghost use Rattle.timing_base.specs.declared.capture.FileNote.TheVariants as note;
ghost use Rattle.timing_base.specs.declared.capture.PcapFault.TheVariants as pcap;
ghost use Rattle.timing_base.specs.declared.fail.Broken.TheVariants as model;
ghost use Rattle.timing_base.specs.declared.media.Kind.{Kind};
ghost use Rattle.timing_base.specs.declared.media.Kind.TheVariants as kind;
ghost use Rattle.timing_base.specs.declared.packet.FlowPacket.{FlowPacket};
ghost use Rattle.timing_base.specs.declared.packet.PacketFault.{PacketFault};
ghost use Rattle.timing_base.specs.declared.packet.PacketFault.TheVariants as packet;
ghost use Rattle.timing_base.specs.declared.row.KindVerdict.TheVariants.{Pass};
ghost use Rattle.timing_base.specs.declared.row.Row.{Row};
ghost use Rattle.timing_base.specs.declared.row.Run.{Run};
ghost use Rattle.timing_base.specs.declared.row.Unjudged.TheVariants as unjudged;
ghost use Rattle.timing_base.specs.Examples.{plain_media as plain};
ghost use Rattle.timing_base.specs.declared.row.Verdict.{Verdict};
ghost use Rattle.timing_base.specs.declared.row.Verdict.TheVariants as verdict;
ghost use Rattle.timing_report.specs.Worked.{check_of, first_flow, narrow};
ghost use Rattle.timing_report.specs.json_report.Json.{count, json_text, list_of, object_of};
ghost use Rattle.timing_report.specs.Text.{report_text};
ghost use Rattle.timing_report.specs.Verdict.{lines_below, run_lines};
ghost use Rattle.report_reader.specs.JsonReading.{data_read, json_read, type_read};
ghost use Rattle.report_reader.specs.PassLines.{flow_passes, is_pass_line, run_passes};
ghost use Rattle.report_reader.specs.Reading.{report_read};
ghost use Rattle.report_reader.specs.Told.{headed, in_one_run, in_runs, is_number, judged_run, leaves_out};
ghost use Rattle.report_reader.specs.Told.{not_judged, rows_of, told_report, told_row};
ghost use Rattle.report_reader.specs.Reported.{AreReported, FitsRow};
ghost use Rattle.report_reader.specs.Worked.{alone, flow_at, one_of, violation};

/// The text of a report is read back: its captures, all lines of each flow, and the status.
pub fn reports_are_read_back()
    ensures { (job : CheckJob) (session : List Media) (notes : List FileNote) (rows : List Row)
        → AreReported job session notes rows
        → report_read (report_text job session notes rows) ≡ Some (told_report job session notes rows) }
{}

/// A JSON report is read back as the same contents as its text, if the file names are UTF-8.
pub fn json_reports_are_read_back()
    ensures json { (job : CheckJob) (session : List Media) (notes : List FileNote) (rows : List Row)
        → AreReported job session notes rows → All IsUtf8 job.captures
        → json_read (json_text job session notes rows) ≡ Some (told_report job session notes rows) }
    ensures both { (job : CheckJob) (session : List Media) (notes : List FileNote) (rows : List Row)
        → AreReported job session notes rows → All IsUtf8 job.captures
        → json_read (json_text job session notes rows) ≡ report_read (report_text job session notes rows) }
{}

/// The lines of a report give its rows, except for the numbers of a flow that is refused for the fault `Number`, and
/// the whole rows if there is no such flow.
pub fn lines_give_rows()
    ensures told { (job : CheckJob) (session : List Media) (notes : List FileNote) (rows : List Row)
        → All FitsRow rows → rows_of (told_report job session notes rows) ≡ map told_row rows }
    ensures whole { (job : CheckJob) (session : List Media) (notes : List FileNote) (rows : List Row)
        → All FitsRow rows → All (λ row. leaves_out row.verdict ≡ false) rows
        → rows_of (told_report job session notes rows) ≡ rows }
{}

/// No two reports with different rows have one text, whatever their jobs and descriptions are.
pub fn one_text_has_one_result()
    ensures told { (job other_job : CheckJob) (session other_session : List Media) (notes other_notes : List FileNote)
        (rows other_rows : List Row)
        → AreReported job session notes rows → AreReported other_job other_session other_notes other_rows
        → report_text job session notes rows ≡ report_text other_job other_session other_notes other_rows
        → told_report job session notes rows ≡ told_report other_job other_session other_notes other_rows }
    ensures rows { (job other_job : CheckJob) (session other_session : List Media) (notes other_notes : List FileNote)
        (rows other_rows : List Row)
        → AreReported job session notes rows → AreReported other_job other_session other_notes other_rows
        → All (λ row. leaves_out row.verdict ≡ false) rows → All (λ row. leaves_out row.verdict ≡ false) other_rows
        → report_text job session notes rows ≡ report_text other_job other_session other_notes other_rows
        → rows ≡ other_rows }
{}

/// No two JSON reports with different rows have one text, whatever their jobs and descriptions are.
pub fn one_json_has_one_result()
    ensures told { (job other_job : CheckJob) (session other_session : List Media) (notes other_notes : List FileNote)
        (rows other_rows : List Row)
        → AreReported job session notes rows → AreReported other_job other_session other_notes other_rows
        → All IsUtf8 job.captures → All IsUtf8 other_job.captures
        → json_text job session notes rows ≡ json_text other_job other_session other_notes other_rows
        → told_report job session notes rows ≡ told_report other_job other_session other_notes other_rows }
    ensures rows { (job other_job : CheckJob) (session other_session : List Media) (notes other_notes : List FileNote)
        (rows other_rows : List Row)
        → AreReported job session notes rows → AreReported other_job other_session other_notes other_rows
        → All IsUtf8 job.captures → All IsUtf8 other_job.captures
        → All (λ row. leaves_out row.verdict ≡ false) rows → All (λ row. leaves_out row.verdict ≡ false) other_rows
        → json_text job session notes rows ≡ json_text other_job other_session other_notes other_rows
        → rows ≡ other_rows }
{}

/// No flow is refused for the fault `Number`: one gap too many is reported as a gap.
pub fn none_is_refused_for_number()
    ensures { (packets : List FlowPacket) (pt : ℕ) (options : FlowOptions) (rec : ℕ) (fault : PacketFault)
        → judged_of_packets packets pt options ≡ refused rec fault → is_number fault ≡ false }
{}

/// A line `  K pass` stands below a flow exactly if it is judged as one run and passes as type K, and a line
/// `    K pass` below a run between gaps exactly if that run is judged and passes.
pub fn pass_lines_are_passes()
    ensures flow { (media : Media) (found : Verdict) (kind : Kind)
        → list_any (is_pass_line (codes "  ") kind) (lines_below media found) ≡ flow_passes found kind }
    ensures run { (media : Media) (index : ℕ) (run : Run) (kind : Kind)
        → list_any (is_pass_line (codes "    ") kind) (run_lines media index run) ≡ run_passes run.verdict kind }
{}

/// The conditions of these laws hold of the results for two frames of 20 packets.
pub fn plain_narrow_is_reported()
    ensures { AreReported (check_of (codes "a.pcap")) (plain ∷ []) (note.End ∷ [])
        (first_flow (verdict.Judged narrow) ∷ []) }
{}

/// Two frames of 20 packets, each packet alone in the bucket and in the buffer.
#[tactic(auto, unfolding(crate::proofs::Readers::readers))]
pub fn plain_narrow_by_hand()
    ensures { report_read (codes "ST 2110-21 timing report\nfile 1 end a.pcap\n"
        ++ (codes "flow 1.1 239.0.0.1:50000 judged: 20 per frame, 2 frames, 40 packets, "
        ++ (codes "head 1, tail 0, class narrow, declared N\n"
        ++ (codes "  N pass, bucket 1 of 4, buffer 1 of 8\n"
        ++ (codes "  NL pass, bucket 1 of 4, buffer 1 of 8\n"
        ++ codes "  W pass, bucket 1 of 16, buffer 1 of 720\nstatus 0\n")))))
        ≡ Some (record {
          files = record { note = note.End; name = codes "a.pcap" } ∷ [];
          flows = flow_at 0 0 (in_one_run (alone 2 40 0)) ∷ [];
          status = 0;
        }) }
{}

/// A packet that comes after its gapped read, a flow without packets, and a capture that is cut, with spaces and digits
/// in its name.
#[tactic(auto, unfolding(crate::proofs::Readers::readers))]
pub fn two_captures_by_hand()
    ensures { report_read (codes "ST 2110-21 timing report\nfile 1 end a.pcap\nfile 2 cut at 2904 at 7 end.pcap\n"
        ++ (codes "flow 1.1 239.0.0.1:50000 judged: 20 per frame, 2 frames, 40 packets, "
        ++ (codes "head 1, tail 0, class narrow linear, declared N\n"
        ++ (codes "  N fail Empty 1 to 1 count 1 limit 2, bucket 1 of 4, buffer 1 of 8\n"
        ++ (codes "  NL pass, bucket 1 of 4, buffer 1 of 8\n"
        ++ (codes "  W pass, bucket 1 of 16, buffer 1 of 720\n"
        ++ codes "flow 2.1 239.0.0.1:50000 absent\nstatus 4\n"))))))
        ≡ Some (record {
          files = record { note = note.End; name = codes "a.pcap" }
              ∷ record { note = note.Cut 2904; name = codes "at 7 end.pcap" } ∷ [];
          flows = flow_at 0 0 (in_one_run (record (alone 2 40 0) {
            class = Some kind.NL;
            narrow = one_of (violation model.Empty 1 1 1 2) 4 8;
          })) ∷ flow_at 1 0 (not_judged unjudged.Absent) ∷ [];
          status = 4;
        }) }
{}

/// Two runs between gaps, the second without a whole frame.
#[tactic(auto, unfolding(crate::proofs::Readers::readers))]
pub fn two_runs_by_hand()
    ensures { report_read (codes "ST 2110-21 timing report\nfile 1 end a.pcap\n"
        ++ (codes "flow 1.1 239.0.0.1:50000 gaps 1, runs 2\n"
        ++ (codes "  run 1 from record 1 number 2: judged: 20 per frame, 1 frames, 20 packets, "
        ++ (codes "head 1, tail 10, class narrow, declared N\n"
        ++ (codes "    N pass, bucket 1 of 4, buffer 1 of 8\n"
        ++ (codes "    NL pass, bucket 1 of 4, buffer 1 of 8\n"
        ++ (codes "    W pass, bucket 1 of 16, buffer 1 of 720\n"
        ++ codes "  run 2 from record 32 number 34 expected 33: no whole frame, head 9\nstatus 4\n")))))))
        ≡ Some (record {
          files = record { note = note.End; name = codes "a.pcap" } ∷ [];
          flows = flow_at 0 0 (in_runs (
              record { rec = 1; number = 2; expected = None; outcome = judged_run (alone 1 20 10) }
              ∷ record { rec = 32; number = 34; expected = Some 33; outcome = headed 9 } ∷ [])) ∷ [];
          status = 4;
        }) }
{}

/// Flows that aren't judged, and a capture that is refused.
#[tactic(auto, unfolding(crate::proofs::Readers::readers))]
pub fn unjudged_by_hand()
    ensures { report_read (codes "ST 2110-21 timing report\nfile 1 refused BadMagic a.pcap\n"
        ++ (codes "flow 1.1 239.0.0.1:50000 no whole frame, head 5\n"
        ++ (codes "flow 1.2 239.0.0.1:50000 refused at record 40: FrameSize want 20 got 19\n"
        ++ (codes "flow 1.3 239.0.0.1:50000 refused at record 2: SecondSource\n"
        ++ codes "flow 1.4 239.0.0.1:50000 gap at record 1026: expected 2049, got 2050\nstatus 4\n"))))
        ≡ Some (record {
          files = record { note = note.Refused pcap.BadMagic; name = codes "a.pcap" } ∷ [];
          flows = flow_at 0 0 (not_judged (unjudged.NoWholeFrame 5))
              ∷ flow_at 0 1 (not_judged (unjudged.Refused 40 (packet.FrameSize 20 19)))
              ∷ flow_at 0 2 (not_judged (unjudged.Refused 2 packet.SecondSource))
              ∷ flow_at 0 3 (not_judged (unjudged.Gap 1026 2049 2050)) ∷ [];
          status = 4;
        }) }
{}

/// Texts that are no reports: a status without its number, text after the status, and a flow without its types.
#[tactic(auto, unfolding(crate::proofs::Readers::readers))]
pub fn other_texts_by_hand()
    ensures no_number { report_read (codes "ST 2110-21 timing report\nstatus \n") ≡ None }
    ensures more { report_read (codes "ST 2110-21 timing report\nstatus 0\n\n") ≡ None }
    ensures no_types { report_read (codes "ST 2110-21 timing report\nfile 1 end a.pcap\n"
        ++ (codes "flow 1.1 239.0.0.1:50000 judged: 20 per frame, 2 frames, 40 packets, "
        ++ codes "head 1, tail 0, class narrow, declared N\nstatus 0\n")) ≡ None }
{}

/// The value of a JSON report: a capture without packets.
#[tactic(auto, unfolding(crate::proofs::Readers::json_readers))]
pub fn absent_json_by_hand()
    ensures { data_read (object_of ((
      codes "files",
      list_of (object_of ((codes "end", string (codes "end"))
          ∷ (codes "name", string (codes "e.pcap")) ∷ []) ∷ []),
    )
        ∷ (
          codes "flows",
          list_of (object_of ((codes "file", count 1) ∷ (codes "media", count 1)
              ∷ (codes "target", string (codes "239.0.0.1:50000"))
              ∷ (codes "verdict", string (codes "absent")) ∷ []) ∷ []),
        )
        ∷ (codes "status", count 4) ∷ []))
        ≡ Some (record {
          files = record { note = note.End; name = codes "e.pcap" } ∷ [];
          flows = flow_at 0 0 (not_judged unjudged.Absent) ∷ [];
          status = 4;
        }) }
{}

/// The value of a sender type that fails, as in the JSON: a packet that comes after its gapped read.
#[tactic(auto, unfolding(crate::proofs::Readers::json_readers))]
pub fn failing_type_json_by_hand()
    ensures { type_read (object_of (
        (codes "bucket_limit", count 4) ∷ (codes "bucket_peak", count 1) ∷ (codes "buffer_limit", count 8)
        ∷ (codes "buffer_peak", count 1) ∷ (codes "pass", boolean false)
        ∷ (
          codes "proof",
          object_of ((codes "count", count 1) ∷ (codes "from", count 1) ∷ (codes "limit", count 2)
              ∷ (codes "model", string (codes "Empty")) ∷ (codes "to", count 1) ∷ []),
        )
        ∷ (codes "type", string (codes "N")) ∷ []))
        ≡ Some (one_of (violation model.Empty 1 1 1 2) 4 8) }
{}
