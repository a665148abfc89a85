ghost use Rattle.std.specs.Prelude.{◌≡◌};
ghost use Rattle.std.specs.List.{AllByRecursion};
ghost use Rattle.port_solve.specs.Solved.{with_words, all_with};
ghost use Rattle.unit_tree.specs.Compositions.{run_of};
ghost use Rattle.unit_tree.specs.Given.{IsInputWord};

use unit_tree::{Gets, InputAt, StartWord};

/// Sets each of some inputs to its word.
pub(crate) fn set_words<G: Gets>(gets: &mut G, starts: &[StartWord])
    requires { AllByRecursion (λ start. IsInputWord (run_of (G.system gets.old)) start.at.instance start.at.input start.word) starts.now }
    ensures inputs { G.inputs gets.new ≡ with_words (G.inputs gets.old) starts.now }
    ensures states { G.states gets.new ≡ G.states gets.old }
    ensures system { G.system gets.new ≡ G.system gets.old }
{
    for start in starts {
        gets.set(start.at.instance, start.at.input, start.word);
    }
}

/// Sets all of some inputs to one word.
pub(crate) fn set_all<G: Gets>(gets: &mut G, feeds: &[InputAt], word: i64)
    requires { AllByRecursion (λ at. IsInputWord (run_of (G.system gets.old)) at.instance at.input word) feeds.now }
    ensures inputs { G.inputs gets.new ≡ with_words (G.inputs gets.old) (all_with word feeds.now) }
    ensures states { G.states gets.new ≡ G.states gets.old }
    ensures system { G.system gets.new ≡ G.system gets.old }
{
    for at in feeds {
        gets.set(at.instance, at.input, word);
    }
}
