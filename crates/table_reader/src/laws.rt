//! Laws of the rows of `series`, and rows that are read by hand. Each function is a theorem: it does nothing, and its
//! clauses are proved.

ghost use Rattle.std.specs.Prelude.{◌≡◌, ◌++◌, ◌∷◌, [], List, All, None, Some, codes, negsuc, pos};
ghost use Rattle.std.specs.List.{flat_map};
ghost use Rattle.flow_measure.specs.declared.report.rows.GroupRow.{GroupRow};
ghost use Rattle.flow_measure.specs.declared.report.rows.PacketRow.{PacketRow};
ghost use Rattle.flow_measure.specs.report.Rows.{group_header_text, group_row_text, packet_header_text, packet_row_text};
ghost use Rattle.table_reader.specs.Fits.{FitsGroupRow, FitsPacketRow};
ghost use Rattle.table_reader.specs.Rows.{groups_read, packets_read};

/// The table of packets is read back: each row as the numbers that it was made of.
pub fn packet_rows_are_read_back()
    ensures { (rows : List PacketRow) → All FitsPacketRow rows
        → packets_read (packet_header_text ++ flat_map packet_row_text rows) ≡ Some rows }
{}

/// The table of frames or fields is read back: each row as the numbers that it was made of.
pub fn group_rows_are_read_back()
    ensures { (rows : List GroupRow) → All FitsGroupRow rows
        → groups_read (group_header_text ++ flat_map group_row_text rows) ≡ Some rows }
{}

/// No two lists of different rows have one table.
pub fn one_table_has_these_rows()
    ensures packets { (rows others : List PacketRow) → All FitsPacketRow rows → All FitsPacketRow others
        → flat_map packet_row_text rows ≡ flat_map packet_row_text others → rows ≡ others }
    ensures groups { (rows others : List GroupRow) → All FitsGroupRow rows → All FitsGroupRow others
        → flat_map group_row_text rows ≡ flat_map group_row_text others → rows ≡ others }
{}

/// Worked by hand: a table of two packets, the second of which the reads have overtaken.
#[tactic(auto, unfolding(crate::proofs::Readers::readers))]
pub fn packets_by_hand()
    ensures two { packets_read (packet_header_text
        ++ codes "1,0,2,1600000000000764000,0,0,1,1,1\n1,1,3,1600000000001724000,0,1,1,0,-2\n") ≡ Some (
        record {
          run = 1;
          packet = 0;
          rec = 2;
          stamp = 1600000000000764000;
          group = 0;
          place = 0;
          bucket = 1;
          gapped = pos 1;
          linear = pos 1;
        }
        ∷ record {
          run = 1;
          packet = 1;
          rec = 3;
          stamp = 1600000000001724000;
          group = 0;
          place = 1;
          bucket = 1;
          gapped = pos 0;
          linear = negsuc 1;
        } ∷ []) }
    ensures none { packets_read packet_header_text ≡ Some [] }

    // A row that isn't whole, and one with a field more, are no rows.
    ensures short { packets_read (packet_header_text ++ codes "1,0,2,3,0,0,1,1\n") ≡ None }
    ensures long { packets_read (packet_header_text ++ codes "1,0,2,3,0,0,1,1,1,1\n") ≡ None }
    ensures cut { packets_read (packet_header_text ++ codes "1,0,2,3,0,0,1,1,1") ≡ None }
    ensures header { packets_read (codes "run,group\n") ≡ None }
{}

/// Worked by hand: a table of two frames, the first of which has no frame before it.
#[tactic(auto, unfolding(crate::proofs::Readers::readers))]
pub fn groups_by_hand()
    ensures { groups_read (group_header_text
        ++ codes "1,0,2,99,764000,19004000,5,,-3,68,1,1,1,1,1\n1,1,22,199,-1,0,1805,1800,0,0,5,-4,5,0,1\n") ≡ Some (
        record {
          run = 1;
          group = 0;
          rec = 2;
          stamp = 99;
          first = pos 764000;
          last = pos 19004000;
          timestamp = 5;
          step = None;
          offset = negsuc 2;
          latency = pos 68;
          bucket = 1;
          gapped_least = pos 1;
          gapped = pos 1;
          linear_least = pos 1;
          linear = pos 1;
        }
        ∷ record {
          run = 1;
          group = 1;
          rec = 22;
          stamp = 199;
          first = negsuc 0;
          last = pos 0;
          timestamp = 1805;
          step = Some 1800;
          offset = pos 0;
          latency = pos 0;
          bucket = 5;
          gapped_least = negsuc 3;
          gapped = pos 5;
          linear_least = pos 0;
          linear = pos 1;
        } ∷ []) }
{}
