//! Theorems about the grammar, and examples of it worked by hand. Each function does nothing; its
//! clauses are what is proved.

ghost use Rattle.std.specs.Prelude.{◌≡◌, List, [], ◌∷◌, ◌++◌, Contains, Some, None, codes, false, true};
ghost use Rattle.timing_base.specs.declared.fail.Broken.TheVariants as broken;
ghost use Rattle.timing_words.specs.declared.request.Request.{Request};
ghost use Rattle.timing_words.specs.declared.request.Request.TheVariants as asks;
ghost use Rattle.timing_base.specs.declared.job.ScanForm.TheVariants as form;
ghost use Rattle.timing_base.specs.declared.media.Kind.TheVariants as kind;
ghost use Rattle.timing_words.specs.declared.command.Command.{Command};
ghost use Rattle.timing_words.specs.declared.command.Command.TheVariants as command;
ghost use Rattle.timing_words.specs.Examples.{Asks, IsCut, IsRefused, IsUncut, halves, plain_capture, plain_check};
ghost use Rattle.timing_base.specs.Examples.{by_sequence_numbers, seconds_added};
ghost use Rattle.timing_base.specs.Shifts.{no_options};
ghost use Rattle.timing_words.specs.Examples.{second_flow, sixteen, sixteen_names, words};
ghost use Rattle.timing_words.specs.Help.{commands, help_text, name_of, usage};
ghost use Rattle.timing_words.specs.Limits.{IsWithinLimits};
ghost use Rattle.timing_words.specs.Line.{Text, flag, line, name, option};
ghost use Rattle.timing_words.specs.Request.{check_sorts, check_workers, command_named, count, file_name, file_names};
ghost use Rattle.timing_words.specs.Request.{delay, inputs, kind_named, media, model_named, number, only_media, request};
ghost use Rattle.timing_words.specs.Request.{tai, test_workers};

/// Worked by hand: arguments that can be separated.
pub fn lines_by_hand()
    ensures apart { IsCut (codes "--sdp a b") (option (codes "sdp") (codes "a") ∷ name (codes "b") ∷ []) }
    ensures attached { IsCut (codes "b --sdp=a=c")
        (name (codes "b") ∷ option (codes "sdp") (codes "a=c") ∷ []) }
    ensures attached_hyphened { IsCut (codes "--sdp=-a") (option (codes "sdp") (codes "-a") ∷ []) }
    ensures empty { IsCut (codes "--sdp=") (option (codes "sdp") [] ∷ []) }
    ensures hyphen { IsCut (codes "--sdp - -") (option (codes "sdp") (codes "-") ∷ name (codes "-") ∷ []) }
    ensures dashes { IsCut (codes "-- --sdp --") (name (codes "--sdp") ∷ name (codes "--") ∷ []) }
    ensures flags { IsCut (codes "--serial --json") (flag (codes "serial") ∷ flag (codes "json") ∷ []) }
{}

/// Worked by hand: arguments that can't be separated.
pub fn no_lines_by_hand()
    ensures value_missing { IsUncut (codes "--sdp") }
    ensures value_hyphened { IsUncut (codes "--sdp -a") }
    ensures value_dashes { IsUncut (codes "--sdp -- a") }
    ensures flag_valued { IsUncut (codes "--json=x") }
    ensures flag_empty { IsUncut (codes "--json=") }
    ensures unknown { IsUncut (codes "--help") }
    ensures prefix { IsUncut (codes "--ser") }
    ensures longer { IsUncut (codes "--sdps=a") }
    ensures short { IsUncut (codes "-h") }
    ensures nameless { IsUncut (codes "--=a") }
{}

/// Worked by hand: an option or flag may be given once, a positional argument any number of times.
pub fn repeats_by_hand()
    ensures names { line check_sorts (words (codes "a --json a"))
        ≡ Some (name (codes "a") ∷ flag (codes "json") ∷ name (codes "a") ∷ []) }
    ensures option { line check_sorts (words (codes "--sdp a --sdp=a")) ≡ None }
    ensures flag { line check_sorts (words (codes "--json a --json")) ≡ None }
    ensures after_dashes { line check_sorts (words (codes "--json -- --json"))
        ≡ Some (flag (codes "json") ∷ name (codes "--json") ∷ []) }
{}

/// Worked by hand: numbers, and the ends of their ranges.
pub fn numbers_by_hand()
    ensures twenty_digits { number 1 16 (codes "00000000000000000016") ≡ Some 16 }
    ensures twenty_one_digits { number 1 16 (codes "000000000000000000016") ≡ None }
    ensures signed { number 0 16 (codes "+5") ≡ None }
    ensures hexadecimal { number 0 16 (codes "0x5") ≡ None }
    ensures nothing { number 0 16 [] ≡ None }
    ensures count_least { count (codes "0") ≡ Some 0 }
    ensures count_most { count (codes "18446744073709551615") ≡ Some 18446744073709551615 }
    ensures count_over { count (codes "18446744073709551616") ≡ None }
    ensures media_none { media (codes "0") ≡ None }
    ensures media_first { media (codes "1") ≡ Some 0 }
    ensures media_last { media (codes "64") ≡ Some 63 }
    ensures media_over { media (codes "65") ≡ None }
    ensures only_unsaid { only_media None ≡ Some None }
    ensures only_none { only_media (Some (codes "0")) ≡ None }
    ensures only_first { only_media (Some (codes "1")) ≡ Some (Some 0) }
    ensures only_last { only_media (Some (codes "64")) ≡ Some (Some 63) }
    ensures only_over { only_media (Some (codes "65")) ≡ None }
    ensures tai_unsaid { tai None ≡ Some 0 }
    ensures tai_least { tai (Some (codes "0")) ≡ Some 0 }
    ensures tai_most { tai (Some (codes "1000")) ≡ Some 1000 }
    ensures tai_over { tai (Some (codes "1001")) ≡ None }
    ensures delay_unsaid { delay None ≡ Some 0 }
    ensures delay_zeros { delay (Some (codes "00000000000000000001")) ≡ Some 1 }
    ensures delay_most { delay (Some (codes "999999999")) ≡ Some 999999999 }
    ensures delay_over { delay (Some (codes "1000000000")) ≡ None }
{}

/// Worked by hand: the workers of `check` and `selftest`.
pub fn workers_by_hand()
    ensures unsaid { check_workers None false ≡ Some 4 }
    ensures serial { check_workers None true ≡ Some 0 }
    ensures excluded { check_workers (Some (codes "2")) true ≡ None }
    ensures none { check_workers (Some (codes "0")) false ≡ None }
    ensures one { check_workers (Some (codes "1")) false ≡ Some 1 }
    ensures most { check_workers (Some (codes "16")) false ≡ Some 16 }
    ensures over { check_workers (Some (codes "17")) false ≡ None }
    ensures test_unsaid { test_workers None ≡ Some 0 }
    ensures test_none { test_workers (Some (codes "0")) ≡ None }
    ensures test_one { test_workers (Some (codes "1")) ≡ Some 1 }
    ensures test_most { test_workers (Some (codes "16")) ≡ Some 16 }
    ensures test_over { test_workers (Some (codes "17")) ≡ None }
{}

/// Worked by hand: names of files, of sender types and of limits.
pub fn names_by_hand()
    ensures nameless { file_name [] ≡ None }
    ensures control { file_name (97 ∷ 31 ∷ []) ≡ None }
    ensures space { file_name (97 ∷ 32 ∷ []) ≡ Some (97 ∷ 32 ∷ []) }
    ensures tilde { file_name (97 ∷ 126 ∷ []) ≡ Some (97 ∷ 126 ∷ []) }
    ensures delete { file_name (97 ∷ 127 ∷ []) ≡ None }
    ensures no_file { file_names 16 [] ≡ None }
    ensures one_file { file_names 1 (codes "a" ∷ []) ≡ Some (codes "a" ∷ []) }
    ensures two_files { file_names 1 (codes "a" ∷ codes "b" ∷ []) ≡ None }
    ensures sixteen_files { file_names 16 sixteen ≡ Some sixteen }
    ensures seventeen_files { file_names 16 (codes "q" ∷ sixteen) ≡ None }
    ensures wrong_file { file_names 16 (codes "a" ∷ [] ∷ []) ≡ None }
    ensures one_alone { inputs false (codes "a" ∷ []) ≡ Some (codes "a" ∷ []) }
    ensures two_alone { inputs false halves ≡ None }
    ensures one_joined { inputs true (codes "a" ∷ []) ≡ Some (codes "a" ∷ []) }
    ensures sixteen_joined { inputs true sixteen ≡ Some sixteen }
    ensures seventeen_joined { inputs true (codes "q" ∷ sixteen) ≡ None }
    ensures none_joined { inputs true [] ≡ None }
    ensures narrow { kind_named (codes "N") ≡ Some kind.N }
    ensures narrow_linear { kind_named (codes "NL") ≡ Some kind.NL }
    ensures wide { kind_named (codes "W") ≡ Some kind.W }
    ensures small { kind_named (codes "nl") ≡ None }
    ensures bucket { model_named (codes "Bucket") ≡ Some broken.Bucket }
    ensures over { model_named (codes "Over") ≡ Some broken.Over }
    ensures empty { model_named (codes "Empty") ≡ Some broken.Empty }
    ensures linear { model_named (codes "Linear") ≡ None }
{}

/// Worked by hand: command lines of `check`.
pub fn checks_by_hand()
    ensures plain { Asks (codes "check --sdp p c") (asks.Check plain_check) }
    ensures full { Asks (codes "check d --joined --tai=37 --sdp=p --workers 2 --json c")
        (asks.Check (record plain_check {
          captures = codes "d" ∷ codes "c" ∷ [];
          workers = 2;
          options = seconds_added 37;
          json = true;
          joined = true;
        })) }
    ensures serial { Asks (codes "check --serial --sdp p --json -- -c")
        (asks.Check (record plain_check { captures = codes "-c" ∷ []; workers = 0; json = true })) }
    ensures sixteen_captures { Asks (codes "check --sdp p " ++ sixteen_names)
        (asks.Check (record plain_check { captures = sixteen })) }
    ensures seventeen_captures { IsRefused (codes "check --sdp p q " ++ sixteen_names) }
    ensures no_capture { IsRefused (codes "check --sdp p") }
    ensures no_sdp { IsRefused (codes "check c") }
    ensures twice { IsRefused (codes "check --sdp p --serial --serial c") }
    ensures both { IsRefused (codes "check --sdp p --serial --workers=2 c") }
    ensures over { IsRefused (codes "check --sdp p --tai 1001 c") }
    ensures media { Asks (codes "check --sdp p --media 64 c d")
        (asks.Check (record plain_check { captures = halves; media = Some 63 })) }
    ensures media_none { IsRefused (codes "check --sdp p --media 0 c") }
    ensures media_over { IsRefused (codes "check --sdp p --media 65 c") }
    ensures media_twice { IsRefused (codes "check --sdp p --media 1 --media 1 c") }
{}

/// Worked by hand: how the packets of a flow are timed and numbered, in lines of the commands that
/// judge flows.
pub fn flow_options_by_hand()
    ensures check { Asks (codes "check --seq16 --delay 999999999 --sdp p --tai 1 c")
        (asks.Check (record plain_check {
          options = record { shift = record { tai = 1; delay = 999999999 }; seq16 = true };
        })) }
    ensures window { Asks (codes "window --seq16 --media=2 --sdp=p c")
        (asks.Window (record (second_flow 0) { options = by_sequence_numbers })) }
    ensures page { Asks (codes "page --delay=7 --sdp=p c")
        (asks.Page (record plain_capture {
          options = record { shift = record { tai = 0; delay = 7 }; seq16 = false };
        })) }
    ensures over { IsRefused (codes "check --sdp p --delay 1000000000 c") }
    ensures twice { IsRefused (codes "check --sdp p --delay 1 --delay 1 c") }
    ensures flag_twice { IsRefused (codes "check --sdp p --seq16 --seq16 c") }
    ensures valued { IsRefused (codes "check --sdp p --seq16=1 c") }
    ensures skew { IsRefused (codes "skew --sdp p --media 2 --pair 1 --seq16 c") }
    ensures scan { IsRefused (codes "scan --delay 1 c") }
{}

/// Worked by hand: command lines of `verify`.
pub fn verifies_by_hand()
    ensures plain { Asks
        (codes "verify --sdp p --media 64 --type NL --model Over --from 1 --to 2 --count 3 --limit 4 c")
        (asks.Verify (record {
          sdp = codes "p";
          media = 63;
          kind = kind.NL;
          proof = record { model = broken.Over; from = 1; to = 2; count = 3; limit = 4 };
          options = no_options;
          captures = codes "c" ∷ [];
          joined = false;
        })) }
    ensures joined { Asks (codes "verify --joined --tai=9 --limit=4 --count=3 --to=2 --from=1 "
        ++ codes "--model=Empty --type=W --media=1 --sdp=p " ++ sixteen_names)
        (asks.Verify (record {
          sdp = codes "p";
          media = 0;
          kind = kind.W;
          proof = record { model = broken.Empty; from = 1; to = 2; count = 3; limit = 4 };
          options = seconds_added 9;
          captures = sixteen;
          joined = true;
        })) }
    ensures joined_over { IsRefused (codes "verify --joined --sdp=p --media=1 --type=N --model=Over "
        ++ codes "--from=1 --to=2 --count=3 --limit=4 q " ++ sixteen_names) }
    ensures two_captures { IsRefused
        (codes "verify --sdp=p --media=1 --type=N --model=Over --from=1 --to=2 --count=3 --limit=4 c d") }
    ensures no_capture { IsRefused
        (codes "verify --sdp=p --media=1 --type=N --model=Over --from=1 --to=2 --count=3 --limit=4") }
    ensures no_sdp { IsRefused
        (codes "verify --media=1 --type=N --model=Over --from=1 --to=2 --count=3 --limit=4 c") }
    ensures no_media { IsRefused
        (codes "verify --sdp=p --type=N --model=Over --from=1 --to=2 --count=3 --limit=4 c") }
    ensures no_type { IsRefused
        (codes "verify --sdp=p --media=1 --model=Over --from=1 --to=2 --count=3 --limit=4 c") }
    ensures no_model { IsRefused
        (codes "verify --sdp=p --media=1 --type=N --from=1 --to=2 --count=3 --limit=4 c") }
    ensures no_from { IsRefused
        (codes "verify --sdp=p --media=1 --type=N --model=Over --to=2 --count=3 --limit=4 c") }
    ensures no_to { IsRefused
        (codes "verify --sdp=p --media=1 --type=N --model=Over --from=1 --count=3 --limit=4 c") }
    ensures no_count { IsRefused
        (codes "verify --sdp=p --media=1 --type=N --model=Over --from=1 --to=2 --limit=4 c") }
    ensures no_limit { IsRefused
        (codes "verify --sdp=p --media=1 --type=N --model=Over --from=1 --to=2 --count=3 c") }
{}

/// Worked by hand: command lines of `verify-report` and `selftest`.
pub fn reports_and_tests_by_hand()
    ensures report { Asks (codes "verify-report --report r --sdp p c d")
        (asks.VerifyReport (record {
          sdp = codes "p";
          report = codes "r";
          options = no_options;
          captures = halves;
          joined = false;
          media = None;
        })) }
    ensures joined { Asks (codes "verify-report --sdp=p --report=r --tai=1 --joined --media=3 c")
        (asks.VerifyReport (record {
          sdp = codes "p";
          report = codes "r";
          options = seconds_added 1;
          captures = codes "c" ∷ [];
          joined = true;
          media = Some 2;
        })) }
    ensures media_over { IsRefused (codes "verify-report --sdp p --report r --media 65 c") }
    ensures seventeen_captures { IsRefused (codes "verify-report --sdp p --report r q " ++ sixteen_names) }
    ensures no_report { IsRefused (codes "verify-report --sdp p c") }
    ensures no_sdp { IsRefused (codes "verify-report --report r c") }
    ensures no_capture { IsRefused (codes "verify-report --sdp p --report r") }
    ensures test { Asks (codes "selftest 2") (asks.SelfTest (record { frames = 2; workers = 0 })) }
    ensures most_frames { Asks (codes "selftest --workers 16 20000")
        (asks.SelfTest (record { frames = 20000; workers = 16 })) }
    ensures one_frame { IsRefused (codes "selftest 1") }
    ensures frames_over { IsRefused (codes "selftest 20001") }
    ensures two_names { IsRefused (codes "selftest 2 3") }
    ensures no_frames { IsRefused (codes "selftest") }
    ensures serial { IsRefused (codes "selftest --serial 2") }
{}

/// Worked by hand: command lines of `window`, `shape` and `skew`.
pub fn flows_by_hand()
    ensures window { Asks (codes "window --media=2 --sdp=p --tai=5 c") (asks.Window (second_flow 5)) }
    ensures window_no_sdp { IsRefused (codes "window --media 2 c") }
    ensures window_no_media { IsRefused (codes "window --sdp p c") }
    ensures window_no_capture { IsRefused (codes "window --sdp p --media 2") }
    ensures window_two_captures { IsRefused (codes "window --sdp p --media 2 c d") }
    ensures window_joined { Asks (codes "window --joined --sdp p --media 2 c d")
        (asks.Window (record (second_flow 0) { captures = halves; joined = true })) }
    ensures window_joined_one { Asks (codes "window --joined --sdp p --media 2 c")
        (asks.Window (record (second_flow 0) { joined = true })) }
    ensures window_joined_none { IsRefused (codes "window --joined --sdp p --media 2") }
    ensures shape { Asks (codes "shape --sdp p --media 2 --type N --list c")
        (asks.Shape (record { flow = second_flow 0; kind = kind.N; list = true })) }
    ensures shape_unlisted { Asks (codes "shape --type=W --tai=5 --sdp=p --media=2 c")
        (asks.Shape (record { flow = second_flow 5; kind = kind.W; list = false })) }
    ensures shape_no_type { IsRefused (codes "shape --sdp p --media 2 c") }
    ensures shape_no_media { IsRefused (codes "shape --sdp p --type N c") }
    ensures shape_joined { Asks (codes "shape --sdp p --media 2 --type N c --joined d")
        (asks.Shape (record {
          flow = record (second_flow 0) { captures = halves; joined = true };
          kind = kind.N;
          list = false;
        })) }
    ensures skew { Asks (codes "skew --sdp p --media 2 --pair 64 c d")
        (asks.Skew (record {
          sdp = codes "p";
          media = 1;
          pair = 63;
          captures = codes "c" ∷ codes "d" ∷ [];
        })) }
    ensures skew_one_capture { Asks (codes "skew --pair=1 --media=1 --sdp=p c")
        (asks.Skew (record { sdp = codes "p"; media = 0; pair = 0; captures = codes "c" ∷ [] })) }
    ensures skew_three_captures { IsRefused (codes "skew --sdp p --media 2 --pair 1 c d e") }
    ensures skew_no_capture { IsRefused (codes "skew --sdp p --media 2 --pair 1") }
    ensures skew_no_sdp { IsRefused (codes "skew --media 2 --pair 1 c") }
    ensures skew_no_media { IsRefused (codes "skew --sdp p --pair 1 c") }
    ensures skew_no_pair { IsRefused (codes "skew --sdp p --media 2 c") }
    ensures skew_tai { IsRefused (codes "skew --sdp p --media 2 --pair 1 --tai 0 c") }
    ensures skew_joined { IsRefused (codes "skew --sdp p --media 2 --pair 1 --joined c d") }
{}

/// Worked by hand: command lines of `sdp`.
pub fn descriptions_by_hand()
    ensures text { Asks (codes "sdp p") (asks.Sdp (record { sdp = codes "p"; json = false })) }
    ensures json { Asks (codes "sdp p --json") (asks.Sdp (record { sdp = codes "p"; json = true })) }
    ensures no_name { IsRefused (codes "sdp --json") }
    ensures two_names { IsRefused (codes "sdp p q") }
    ensures option { IsRefused (codes "sdp --sdp p") }
    ensures valued { IsRefused (codes "sdp --json=1 p") }
{}

/// Worked by hand: command lines of `scan`.
pub fn scans_by_hand()
    ensures plain { Asks (codes "scan c") (asks.Scan (record { capture = codes "c"; form = form.Lines })) }
    ensures json { Asks (codes "scan --json c") (asks.Scan (record { capture = codes "c"; form = form.Json })) }
    ensures draft { Asks (codes "scan c --draft") (asks.Scan (record { capture = codes "c"; form = form.Draft })) }
    ensures both { IsRefused (codes "scan --json --draft c") }
    ensures no_capture { IsRefused (codes "scan --json") }
    ensures two_captures { IsRefused (codes "scan c d") }
    ensures sdp { IsRefused (codes "scan --sdp p c") }
    ensures tai { IsRefused (codes "scan --tai 37 c") }
    ensures media { IsRefused (codes "scan --media 1 c") }
    ensures joined { IsRefused (codes "scan --joined c d") }
{}

/// Worked by hand: command lines of `measure`.
pub fn measures_by_hand()
    ensures plain { Asks (codes "measure --sdp p c") (asks.Measure plain_capture) }
    ensures later { Asks (codes "measure c --tai=1000 --sdp=p")
        (asks.Measure (record plain_capture { options = seconds_added 1000 })) }
    ensures joined { Asks (codes "measure --joined --sdp p c d")
        (asks.Measure (record plain_capture { captures = halves; joined = true })) }
    ensures joined_sixteen { Asks (codes "measure --joined --sdp p " ++ sixteen_names)
        (asks.Measure (record plain_capture { captures = sixteen; joined = true })) }
    ensures joined_seventeen { IsRefused (codes "measure --joined --sdp p q " ++ sixteen_names) }
    ensures media { Asks (codes "measure --sdp p --media 1 c")
        (asks.Measure (record plain_capture { media = Some 0 })) }
    ensures media_over { IsRefused (codes "measure --sdp p --media 65 c") }
    ensures tai_over { IsRefused (codes "measure --sdp p --tai 1001 c") }
    ensures no_sdp { IsRefused (codes "measure c") }
    ensures no_capture { IsRefused (codes "measure --sdp p") }
    ensures two_captures { IsRefused (codes "measure --sdp p c d") }
    ensures json { IsRefused (codes "measure --sdp p --json c") }
{}

/// Worked by hand: command lines of `series`.
pub fn series_by_hand()
    ensures packets { Asks (codes "series --sdp p --media 2 c")
        (asks.Series (record { flow = second_flow 0; frames = false })) }
    ensures frames { Asks (codes "series c --frames --tai=5 --media=2 --sdp=p")
        (asks.Series (record { flow = second_flow 5; frames = true })) }
    ensures no_media { IsRefused (codes "series --sdp p c") }
    ensures no_sdp { IsRefused (codes "series --media 2 c") }
    ensures no_capture { IsRefused (codes "series --sdp p --media 2") }
    ensures two_captures { IsRefused (codes "series --sdp p --media 2 c d") }
    ensures joined { Asks (codes "series --joined --sdp p --media 2 c d")
        (asks.Series (record {
          flow = record (second_flow 0) { captures = halves; joined = true };
          frames = false;
        })) }
    ensures valued { IsRefused (codes "series --sdp p --media 2 --frames=1 c") }
{}

/// Worked by hand: command lines of `page`.
pub fn pages_by_hand()
    ensures plain { Asks (codes "page --sdp p c") (asks.Page plain_capture) }
    ensures later { Asks (codes "page c --tai=1000 --sdp=p")
        (asks.Page (record plain_capture { options = seconds_added 1000 })) }
    ensures chosen { Asks (codes "page --joined c --media=64 d --sdp=p")
        (asks.Page (record plain_capture { captures = halves; joined = true; media = Some 63 })) }
    ensures tai_over { IsRefused (codes "page --sdp p --tai 1001 c") }
    ensures no_sdp { IsRefused (codes "page c") }
    ensures no_capture { IsRefused (codes "page --sdp p") }
    ensures two_captures { IsRefused (codes "page --sdp p c d") }
    ensures media_none { IsRefused (codes "page --sdp p --media 0 c") }
{}

/// Worked by hand: command lines of `explain`.
pub fn explains_by_hand()
    ensures plain { Asks (codes "explain --sdp p c") (asks.Explain (record { flows = plain_capture; json = false })) }
    ensures json { Asks (codes "explain c --tai=1000 --json --sdp=p")
        (asks.Explain (record { flows = record plain_capture { options = seconds_added 1000 }; json = true })) }
    ensures chosen { Asks (codes "explain --joined c --media=64 d --sdp=p")
        (asks.Explain (record {
          flows = record plain_capture { captures = halves; joined = true; media = Some 63 };
          json = false;
        })) }
    ensures no_sdp { IsRefused (codes "explain c") }
    ensures no_capture { IsRefused (codes "explain --sdp p") }
    ensures two_captures { IsRefused (codes "explain --sdp p c d") }
    ensures valued { IsRefused (codes "explain --sdp p --json=1 c") }
{}

/// Worked by hand: command lines of `watch`.
pub fn watches_by_hand()
    ensures plain { Asks (codes "watch --sdp p c")
        (asks.Watch (record { flows = plain_capture; every = None; json = false })) }
    ensures every { Asks (codes "watch --every=1 --json --sdp=p c")
        (asks.Watch (record { flows = plain_capture; every = Some 1; json = true })) }
    ensures every_most { Asks (codes "watch --sdp p --every 1000000 c")
        (asks.Watch (record { flows = plain_capture; every = Some 1000000; json = false })) }
    ensures chosen { Asks (codes "watch --joined c --media=64 d --sdp=p --tai 1000")
        (asks.Watch (record {
          flows = record plain_capture {
            options = seconds_added 1000;
            captures = halves;
            joined = true;
            media = Some 63;
          };
          every = None;
          json = false;
        })) }
    ensures every_none { IsRefused (codes "watch --sdp p --every 0 c") }
    ensures every_over { IsRefused (codes "watch --sdp p --every 1000001 c") }
    ensures no_sdp { IsRefused (codes "watch c") }
    ensures no_capture { IsRefused (codes "watch --sdp p") }
    ensures two_captures { IsRefused (codes "watch --sdp p c d") }
    ensures serial { IsRefused (codes "watch --sdp p --serial c") }
    ensures elsewhere { IsRefused (codes "page --sdp p --every 1 c") }
{}

/// Worked by hand: first arguments that are no command.
pub fn no_commands_by_hand()
    ensures nothing { request [] ≡ None }
    ensures unknown { IsRefused (codes "judge") }
    ensures prefix { IsRefused (codes "chec --sdp p c") }
    ensures capital { IsRefused (codes "Check --sdp p c") }
    ensures after_options { IsRefused (codes "--sdp p check c") }
{}

/// Worked by hand: command lines of `help`.
pub fn helps_by_hand()
    ensures all { Asks (codes "help") (asks.Help None) }
    ensures one { Asks (codes "help check") (asks.Help (Some command.Check)) }
    ensures hyphened { Asks (codes "help verify-report") (asks.Help (Some command.VerifyReport)) }
    ensures unknown { IsRefused (codes "help nothing") }
    ensures itself { IsRefused (codes "help help") }
    ensures two { IsRefused (codes "help check verify") }
    ensures option { IsRefused (codes "help --json") }
    ensures dashes { IsRefused (codes "help -- check") }
    ensures after { IsRefused (codes "check help") }
    ensures flag { IsRefused (codes "--help") }
{}

/// Worked by hand: the arguments of commands as `help` shows them, and the whole output of
/// `help selftest`.
pub fn help_texts_by_hand()
    ensures check { usage command.Check
        ≡ codes "check --sdp FILE [--workers N] [--tai SECONDS] [--delay NANOSECONDS] "
        ++ codes "[--media N] [--serial] [--json] [--joined] [--seq16] CAPTURE.." }
    ensures window { usage command.Window
        ≡ codes "window --sdp FILE --media N [--tai SECONDS] [--delay NANOSECONDS] [--joined] [--seq16] CAPTURE.." }
    ensures page { usage command.Page
        ≡ codes "page --sdp FILE [--tai SECONDS] [--delay NANOSECONDS] [--media N] [--joined] [--seq16] CAPTURE.." }
    ensures explain { usage command.Explain
        ≡ codes "explain --sdp FILE [--tai SECONDS] [--delay NANOSECONDS] [--media N] [--json] [--joined] "
        ++ codes "[--seq16] CAPTURE.." }
    ensures watch { usage command.Watch
        ≡ codes "watch --sdp FILE [--tai SECONDS] [--delay NANOSECONDS] [--media N] [--every N] [--joined] [--seq16] "
        ++ codes "[--json] CAPTURE.." }
    ensures skew { usage command.Skew ≡ codes "skew --sdp FILE --media N --pair N CAPTURE [CAPTURE]" }
    ensures whole { help_text (Some command.SelfTest)
        ≡ codes "selftest [--workers N] FRAMES\n"
        ++ (codes "makes five captures of so many frames, four of them with a flaw, and judges each\n\n"
        ++ (codes "  --workers N: so many threads judge, 1 to 16\n\n"
        ++ (codes "Prints for each capture what is found in it, and the status of its report.\n"
        ++ codes "Example: ./run selftest 2\n"))) }
{}

/// The name that `help` shows for a command is read as that command, and `help` shows every
/// command.
pub fn shown_words_are_read()
    ensures read { (c : Command) → command_named (name_of c) ≡ Some c }
    ensures all { (c : Command) → Contains commands c }
{}

/// The job of every request is within its limits: one capture, or 1 to 16 where they are joined or
/// judged one by one, at most 16 workers and 1,000 seconds, and so on for each command.
pub fn jobs_are_within_limits()
    ensures { (words : List Text) (asked : Request) → request words ≡ Some asked → IsWithinLimits asked }
{}
