use fixed_words::Fault;

/// Components of a system whose inputs can be set and whose outputs can be read. Instances, inputs and outputs are
/// named by their numbers from 0 in the system's plain form.
pub trait Gets {
    ghost use Rattle.std.specs.Prelude.{ℤ, List, Some, IsSome, ◌≡◌};
    ghost use Rattle.unit_tree.specs.Compositions.{run_of};
    ghost use Rattle.unit_tree.specs.Given.{given_by, with_input, IsInputWord};
    ghost use Rattle.unit_tree.specs.declared.system.System.{System};

    /// The system that these components are of.
    ghost system: { Self → System };

    /// The state of each instance.
    ghost states: { Self → List (List ℤ) };

    /// The words of each instance's inputs.
    ghost inputs: { Self → List (List ℤ) };

    /// Sets one input to a word.
    fn set(&mut self, instance: u32, input: u32, word: i64)
        requires { IsInputWord (run_of (system self.old)) instance input word }
        ensures inputs { inputs self.new ≡ with_input (inputs self.old) instance input word }
        ensures states { states self.new ≡ states self.old }
        ensures system { system self.new ≡ system self.old };

    /// The word of an output for the current states and inputs, or its fault.
    fn get(&mut self, instance: u32, output: u32) -> Result<i64, Fault>
        requires { IsSome (given_by (run_of (system self.old)) (states self.old) (inputs self.old) instance output) }
        ensures given { given_by (run_of (system self.old)) (states self.old) (inputs self.old) instance output ≡ Some result }
        ensures inputs { inputs self.new ≡ inputs self.old }
        ensures states { states self.new ≡ states self.old }
        ensures system { system self.new ≡ system self.old };
}
