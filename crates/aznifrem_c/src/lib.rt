// The calls of `aznifrem`, exported to C: a library cannot be a static library too.
// "The exported entry takes numbers and byte slices."
// Each is one call of the function of its name in `aznifrem`, with that function's clauses, word for word (`tests/once` holds them to each other).
#![tactic(auto)]

ghost use Rattle.std.specs.Prelude.{◌≡◌};
ghost use Rattle.spec.specs.Reader as definitions;
ghost use Rattle.spec.specs.Reader.{reads_as};
ghost use Rattle.spec.specs.Report.{report_add, report_join};
ghost use Rattle.layout.specs.Buffers.{buffers};
ghost use Rattle.aznifrem.specs.Promises.{Exported, ExportedJson};
ghost use Rattle.aznifrem.specs.Reports.{ExportedReport};
ghost use Rattle.aznifrem.specs.Archives.{ExportedSalvage};
ghost use Rattle.aznifrem.specs.FollowContract.{ExportedFollow};
ghost use Rattle.aznifrem.specs.InspectContract.{ExportedInspect, ExportedInspectFrom};

#[unsafe(no_mangle)]
pub extern "C" fn aznifrem_map(
    limit: u64,
    choice: u64,
    mode: u64,
    code: &[u8],
    w: &mut [u8],
    p: &mut [u8],
    s: &mut [u8],
    t: &mut [u8],
    r: &mut [u8],
    q: &mut [u8],
    out: &mut [u8],
) -> u64
    ensures { Exported limit choice mode code.now (buffers w.old p.old s.old t.old r.old q.old)
        out.old (buffers w.new p.new s.new t.new r.new q.new) out.new result }
{
    aznifrem::aznifrem_map(limit, choice, mode, code, w, p, s, t, r, q, out)
}

#[unsafe(no_mangle)]
pub extern "C" fn aznifrem_json(
    limit: u64,
    choice: u64,
    mode: u64,
    code: &[u8],
    w: &mut [u8],
    p: &mut [u8],
    s: &mut [u8],
    t: &mut [u8],
    r: &mut [u8],
    q: &mut [u8],
    out: &mut [u8],
    text: &mut [u8],
) -> u64
    ensures { ExportedJson limit choice mode code.now (buffers w.old p.old s.old t.old r.old q.old)
        out.old text.old (buffers w.new p.new s.new t.new r.new q.new)
        out.new text.new result }
{
    aznifrem::aznifrem_json(limit, choice, mode, code, w, p, s, t, r, q, out, text)
}

#[unsafe(no_mangle)]
pub extern "C" fn aznifrem_read(map: &[u8]) -> u64
    ensures { result ≡ reads_as (definitions.read map.now) }
{
    aznifrem::aznifrem_read(map)
}

#[unsafe(no_mangle)]
pub extern "C" fn aznifrem_report_add(report: &mut [u8], map: &[u8]) -> u64
    ensures { ExportedReport report.old (report_add report.old map.now) report.new result }
{
    aznifrem::aznifrem_report_add(report, map)
}

#[unsafe(no_mangle)]
pub extern "C" fn aznifrem_report_join(report: &mut [u8], other: &[u8]) -> u64
    ensures { ExportedReport report.old (report_join report.old other.now) report.new result }
{
    aznifrem::aznifrem_report_join(report, other)
}

#[unsafe(no_mangle)]
pub extern "C" fn aznifrem_salvage(archive: &[u8], out: &mut [u8], report: &mut [u8]) -> u64
    ensures { ExportedSalvage archive.now out.old report.old out.new report.new result }
{
    aznifrem::aznifrem_salvage(archive, out, report)
}

#[unsafe(no_mangle)]
pub extern "C" fn aznifrem_follow(
    map: &[u8],
    code: &[u8],
    log: &[u8],
    work: &mut [u8],
    counts: &mut [u8],
) -> u64
    ensures { ExportedFollow map.now code.now log.now work.old counts.old work.new counts.new result }
{
    aznifrem::aznifrem_follow(map, code, log, work, counts)
}

#[unsafe(no_mangle)]
pub extern "C" fn aznifrem_inspect(
    mode: u64,
    code: &[u8],
    map: &[u8],
    w: &mut [u8],
    place: &mut [u8],
) -> u64
    ensures { ExportedInspect mode code.now map.now w.old place.old w.new place.new result }
{
    aznifrem::aznifrem_inspect(mode, code, map, w, place)
}

#[unsafe(no_mangle)]
pub extern "C" fn aznifrem_inspect_from(
    mode: u64,
    from: u64,
    code: &[u8],
    map: &[u8],
    w: &mut [u8],
    rows: &mut [u8],
) -> u64
    ensures { ExportedInspectFrom mode code.now map.now from w.old rows.old w.new rows.new result }
{
    aznifrem::aznifrem_inspect_from(mode, from, code, map, w, rows)
}
