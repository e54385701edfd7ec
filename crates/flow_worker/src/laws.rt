//! Theorems about the definitions. Each function does nothing; its clauses are the theorem.

ghost use Rattle.std.specs.Prelude.{◌≡◌, ◌<◌, ◌∷◌, [], ℕ, List, length, slice_get, Some, true, false, ◌++◌, IsTrue, map};
ghost use Rattle.timing_base.specs.Captures.{Record};
ghost use Rattle.timing_base.specs.Media.{Media};
ghost use Rattle.udp_rtp.specs.Flow.{flow};
ghost use Rattle.ruled_intake.specs.declared.message.Message.{Message};
ghost use Rattle.flow_worker.specs.Cut.{AreWhole};
ghost use Rattle.flow_worker.specs.TwoFiles.{five_packets, packet_in, second_of_first, second_of_second, to_lane, two_files, two_workers};
ghost use Rattle.flow_worker.specs.Messages.{batch, media_packets};
ghost use Rattle.flow_worker.specs.Opening.{Capture, IsSetting, Setting, lane_packets, media_lane, messages, packet_lane, sent_of, session_packets};
ghost use Rattle.timing_base.specs.declared.key.FlowKey.{FlowKey};
ghost use Rattle.udp_rtp.specs.TwoFlows.{packet_at};
ghost use Rattle.fail_interval.specs.Rows.{rows_of_files};
ghost use Rattle.timing_base.specs.Keys.{key_of};
ghost use Rattle.flow_worker.specs.SmallRun.{all_steps, early_steps, later_steps};
ghost use Rattle.flow_worker.specs.Posting.{is_key, is_whole, judged_files, key_row, keys, row_over, taken_packets, taken_row};
ghost use Rattle.flow_worker.specs.World.{HasEnded, State, Step, after, after_steps, opening, times};
ghost use Rattle.flow_worker.specs.Kept.{HasPosted, HasTakenAll, IsInOrder};

/// What a file has to send to the lane of a worker is batches with the packets of the lane, in order, and then its end.
/// If a media is dealt to a lane, its packets among those of the lane are the media's flow.
pub fn lanes_in_order()
    ensures whole { (s : Setting) (captures : List Capture) (file lane : ℕ) (c : Capture)
        → slice_get captures file ≡ Some c → lane < s.workers
        → AreWhole file (lane_packets (packet_lane s file) lane (session_packets s.media c.records))
        c.note (length c.records) (messages s captures file lane) }
    ensures flows { (s : Setting) (file number : ℕ) (m : Media) (items : List Record)
        → IsSetting s → slice_get s.media number ≡ Some m
        → media_packets number (lane_packets (packet_lane s file) (media_lane s file number)
        (session_packets s.media items)) ≡ flow items m }
{}

/// Worked by hand: batches of two packets. The third packet fills the batch of the first lane, and the fourth that of
/// the second; the fifth is left.
pub fn batches_by_hand()
    ensures sent { (end : Message) → sent_of 2 7 (λ p. p.media) five_packets 3 end
        ≡ to_lane 0 (batch 7 (packet_in 0 2 ∷ packet_in 0 3 ∷ []))
        ∷ to_lane 1 (batch 7 (packet_in 1 1 ∷ packet_in 1 4 ∷ []))
        ∷ to_lane 0 (batch 7 (packet_in 0 5 ∷ []))
        ∷ to_lane 0 end ∷ to_lane 1 end ∷ to_lane 2 end ∷ [] }
    ensures first { messages (two_workers false) two_files 0 1 ≡ second_of_first }
    ensures second { messages (two_workers false) two_files 1 1 ≡ second_of_second }
    ensures none { messages (two_workers false) two_files 2 1 ≡ [] }
    ensures joined { messages (two_workers true) two_files 1 1 ≡ second_of_second }

    // With three workers, the flows of the second file belong to the third and the first worker. Joined, they are those
    // of the first file.
    ensures third { media_lane (record (two_workers false) { workers = 3 }) 1 0 ≡ 2 }
    ensures fourth { media_lane (record (two_workers false) { workers = 3 }) 1 1 ≡ 0 }
    ensures as_first { media_lane (record (two_workers true) { workers = 3 }) 1 1 ≡ 1 }
{}

/// Each step keeps the messages of each file for each lane in order, whatever the state before it. So in every run, at
/// every moment, each posted result is that of its flow, and no flow's result was posted twice. A run that has ended
/// has posted the result of each flow once.
///
/// A worker makes the right result for a flow of its own, whatever else it took and in whatever order, if for each file
/// of the flow it took a prefix of the file's messages for its lane, with an end among them.
pub fn world_rows()
    ensures opens { (s : Setting) (captures : List Capture)
        → IsInOrder s captures (opening s captures) }
    ensures keeps { (s : Setting) (captures : List Capture) (step : Step) (state : State)
        → IsInOrder s captures state → IsInOrder s captures (after s (length captures) step state) }
    ensures rows { (s : Setting) (captures : List Capture) (steps : List Step)
        → IsSetting s → HasPosted s captures (after_steps s captures steps) }
    ensures ended { (s : Setting) (captures : List Capture) (steps : List Step) (key : FlowKey)
        → IsSetting s → HasEnded s (length captures) (after_steps s captures steps)
        → IsTrue (is_key s (length captures) key)
        → times key (after_steps s captures steps).posted ≡ 1 }
    ensures lists { (s : Setting) (captures : List Capture) (key : FlowKey)
        (taken : List Message) → IsSetting s → IsTrue (is_key s (length captures) key)
        → HasTakenAll s captures key taken
        → taken_row s (length captures) taken key ≡ key_row s captures key }
{}

/// From each state of a run some steps lead to one that has ended: no run gets stuck. That threads take these steps
/// isn't part of the theorem.
pub fn runs_can_end()
    ensures { (s : Setting) (captures : List Capture) (steps : List Step)
        → (later : List Step) × HasEnded s (length captures) (after_steps s captures (steps ++ later)) }
{}

/// The results of the keys of a run, by file and then by media, are the results of its files: of each by itself, or if
/// they are joined, of all as one.
pub fn keys_in_order()
    ensures { (s : Setting) (captures : List Capture)
        → map (key_row s captures) (keys s (length captures))
        ≡ rows_of_files s.options 0 s.media (judged_files s captures) }
{}

/// Worked by hand: a result is posted only if the end of its file was taken, by its own worker, and once.
pub fn run_by_hand()
    ensures early { (after_steps (two_workers false) two_files early_steps).posted ≡ [] }
    ensures later { (after_steps (two_workers false) two_files (early_steps ++ later_steps)).posted
        ≡ row_over (two_workers false) (key_of 1 1) (packet_at 1 200 ∷ []) ∷ [] }

    // All steps, with the messages of both files interleaved in both lanes.
    ensures whole { (after_steps (two_workers false) two_files all_steps).posted
        ≡ row_over (two_workers false) (key_of 1 1) (packet_at 1 200 ∷ [])
        ∷ row_over (two_workers false) (key_of 0 1) (packet_at 1 100 ∷ [])
        ∷ row_over (two_workers false) (key_of 0 0) (packet_at 4 130 ∷ packet_at 5 140 ∷ [])
        ∷ row_over (two_workers false) (key_of 1 0) [] ∷ [] }
{}

/// Worked by hand: if files are joined, the ends of all files are needed, and the packets come by file, whatever came
/// first. The packet record of the second file is the sixth.
pub fn joined_by_hand()
    ensures half { is_whole (two_workers true) 2 second_of_second (key_of 0 1) ≡ false }
    ensures whole { is_whole (two_workers true) 2 (second_of_second ++ second_of_first) (key_of 0 1)
        ≡ true }
    ensures packets { taken_packets (two_workers true) 2 (second_of_second ++ second_of_first)
        (key_of 0 1) ≡ packet_at 1 100 ∷ packet_at 6 200 ∷ [] }
    ensures key { is_key (two_workers true) 2 (key_of 1 1) ≡ false }
{}
