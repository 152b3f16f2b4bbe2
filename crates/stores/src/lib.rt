// The two stores of PRG-63 on lent tables: searches, and each operation as a step that takes its outcome first.
// A step's contract is by these definitions: opened, they leave nothing to answer where `?` returns.
#![tactic(auto, unfolding(paper::specs::Steps::allowed, paper::specs::Steps::attempt, paper::specs::Steps::tried, paper::specs::Stores::create_header, paper::specs::Stores::read_header, paper::specs::Stores::create_page, paper::specs::Stores::read_page))]

pub mod headers;
pub mod pages;
pub mod slot;

ghost use Rattle.std.specs.Prelude.{◌≡◌};
ghost use Rattle.paper.specs.Steps.{allowed};

use paper::Refusal;

// What the outcome alone makes of a step, before its own conditions are looked at.
fn allowed(outcome: u8) -> Result<(), Refusal>
    ensures { result ≡ allowed outcome }
{
    match outcome {
        0 => Ok(()),
        1 => Err(Refusal::ServiceError),
        _ => Err(Refusal::Cut),
    }
}
