// The functions of `boundary` under their C names, for the archive libboundary.a. Each calls the one
// of its name and states what that states; boundary.h says them for programs in C. They stand here once more
// since an archive is a crate of its own (docs/DECISIONS.md, 36).
#![tactic(auto)]

ghost use Rattle.std.specs.Prelude.{◌≡◌};
ghost use Rattle.wac.specs.Answers.{first_of};
ghost use Rattle.wac.specs.File.{file_cases, count_of};
ghost use Rattle.decision.specs.Question.{request_of};
ghost use Rattle.boundary.specs.Coded.{coded, cert_of, FetchCoded, AppendCoded};
ghost use Rattle.boundary.specs.Questions.{AskCoded, MayCoded, StockCoded, SettleCoded};

#[unsafe(no_mangle)]
pub extern "C" fn wac_check(file: &[u8]) -> u32
    ensures { result ≡ coded (first_of (file_cases file.now) (count_of file.now)) }
{
    boundary::wac_check(file)
}

#[unsafe(no_mangle)]
pub extern "C" fn wac_count(file: &[u8]) -> u32
    ensures { result ≡ coded (first_of (file_cases file.now) (count_of file.now)) }
{
    boundary::wac_count(file)
}

#[unsafe(no_mangle)]
pub extern "C" fn wac_fetch(file: &[u8], n: usize, lent: &mut [u32]) -> u32
    ensures { FetchCoded file.now n lent.old result lent.new }
{
    boundary::wac_fetch(file, n, lent)
}

#[unsafe(no_mangle)]
pub extern "C" fn wac_append(
    buffer: &mut [u8],
    used: usize,
    kind: u8,
    issuer: u8,
    left: u8,
    subject: u8,
    count: u8,
    first: u8,
    second: u8,
    third: u8,
    mark: u8,
    rights: u8,
    not_before: u32,
    not_after: u32,
) -> u32
    ensures { AppendCoded buffer.old used (cert_of kind issuer left subject count first second third mark rights not_before not_after) result buffer.new }
{
    boundary::wac_append(
        buffer, used, kind, issuer, left, subject, count, first, second, third, mark, rights,
        not_before, not_after,
    )
}

#[unsafe(no_mangle)]
pub extern "C" fn decision_ask(
    file: &[u8],
    owner: u8,
    asker: u8,
    rights: u8,
    at: u32,
    minutes: &mut [u32],
    steps: &mut [u32],
    chain: &mut [u8],
) -> u64
    ensures { AskCoded file.now (request_of owner asker rights at) result minutes.old minutes.new steps.old steps.new chain.old chain.new }
{
    boundary::decision_ask(file, owner, asker, rights, at, minutes, steps, chain)
}

#[unsafe(no_mangle)]
pub extern "C" fn decision_short(
    file: &[u8],
    owner: u8,
    asker: u8,
    at: u32,
    minutes: &mut [u32],
    steps: &mut [u32],
    chain: &mut [u8],
) -> u64
    ensures { AskCoded file.now (request_of owner asker 2 at) result minutes.old minutes.new steps.old steps.new chain.old chain.new }
{
    boundary::decision_short(file, owner, asker, at, minutes, steps, chain)
}

#[unsafe(no_mangle)]
pub extern "C" fn decision_may(file: &[u8], owner: u8, asker: u8, at: u32) -> u32
    ensures { MayCoded file.now (request_of owner asker 2 at) result }
{
    boundary::decision_may(file, owner, asker, at)
}

#[unsafe(no_mangle)]
pub extern "C" fn decision_stock(file: &[u8], owner: u8, at: u32) -> u32
    ensures { StockCoded file.now owner at result }
{
    boundary::decision_stock(file, owner, at)
}

#[unsafe(no_mangle)]
pub extern "C" fn decision_settle(
    file: &[u8],
    owner: u8,
    asker: u8,
    rights: u8,
    at: u32,
    minutes: &mut [u32],
) -> u64
    ensures { SettleCoded file.now (request_of owner asker rights at) result minutes.old minutes.new }
{
    boundary::decision_settle(file, owner, asker, rights, at, minutes)
}
