//! The built-in classes and their methods.

ghost use Rattle.std.specs.Prelude.{ℕ, List};
ghost use Rattle.cc_built_in.specs.BuiltInMethods.{array_methods};
ghost use Rattle.cc_built_in.specs.Listed.{AreClasses, AreMethods};

/// A method: its name, the descriptors of its parameters and its result, and its name within its class as printed.
#[derive(Clone, Copy)]
pub struct ListedMethod {
    pub name: &'static [u8],
    pub params: &'static [&'static [u8]],
    pub result: &'static [u8],
    pub member: &'static [u8],
}

/// A class: its name, its superclass's, which `Object` alone hasn't got, whether it is `Throwable` or below it, and its methods in the order of their names.
#[derive(Clone, Copy)]
pub struct ListedClass {
    pub name: &'static [u8],
    pub superclass: Option<&'static [u8]>,
    pub is_throwable: bool,
    pub methods: &'static [ListedMethod],
}

const OBJECT: &[u8] = b"Ljava/lang/Object;";

const STRING: &[u8] = b"Ljava/lang/String;";

const STRING_BUILDER: &[u8] = b"Ljava/lang/StringBuilder;";

const THROWABLE: &[u8] = b"Ljava/lang/Throwable;";

const EXCEPTION: &[u8] = b"Ljava/lang/Exception;";

const ERROR: &[u8] = b"Ljava/lang/Error;";

const RUNTIME_EXCEPTION: &[u8] = b"Ljava/lang/RuntimeException;";

const INDEX_OUT_OF_BOUNDS: &[u8] = b"Ljava/lang/IndexOutOfBoundsException;";

const LINKAGE_ERROR: &[u8] = b"Ljava/lang/LinkageError;";

const VIRTUAL_MACHINE_ERROR: &[u8] = b"Ljava/lang/VirtualMachineError;";

const INCOMPATIBLE_CHANGE: &[u8] = b"Ljava/lang/IncompatibleClassChangeError;";

/// What each throwable below `Throwable` has.
const CONSTRUCTORS: &[ListedMethod] = &[
    ListedMethod {
        name: b"<init>",
        params: &[],
        result: b"V",
        member: b"<init>()V",
    },
    ListedMethod {
        name: b"<init>",
        params: &[STRING],
        result: b"V",
        member: b"<init>(Ljava/lang/String;)V",
    },
];

const THROWABLE_METHODS: &[ListedMethod] = &[
    ListedMethod {
        name: b"<init>",
        params: &[],
        result: b"V",
        member: b"<init>()V",
    },
    ListedMethod {
        name: b"<init>",
        params: &[STRING],
        result: b"V",
        member: b"<init>(Ljava/lang/String;)V",
    },
    ListedMethod {
        name: b"getMessage",
        params: &[],
        result: STRING,
        member: b"getMessage()Ljava/lang/String;",
    },
];

const PRINT_STREAM_METHODS: &[ListedMethod] = &[
    ListedMethod {
        name: b"print",
        params: &[b"C"],
        result: b"V",
        member: b"print(C)V",
    },
    ListedMethod {
        name: b"print",
        params: &[b"I"],
        result: b"V",
        member: b"print(I)V",
    },
    ListedMethod {
        name: b"print",
        params: &[b"J"],
        result: b"V",
        member: b"print(J)V",
    },
    ListedMethod {
        name: b"print",
        params: &[STRING],
        result: b"V",
        member: b"print(Ljava/lang/String;)V",
    },
    ListedMethod {
        name: b"print",
        params: &[b"Z"],
        result: b"V",
        member: b"print(Z)V",
    },
    ListedMethod {
        name: b"println",
        params: &[],
        result: b"V",
        member: b"println()V",
    },
    ListedMethod {
        name: b"println",
        params: &[b"C"],
        result: b"V",
        member: b"println(C)V",
    },
    ListedMethod {
        name: b"println",
        params: &[b"I"],
        result: b"V",
        member: b"println(I)V",
    },
    ListedMethod {
        name: b"println",
        params: &[b"J"],
        result: b"V",
        member: b"println(J)V",
    },
    ListedMethod {
        name: b"println",
        params: &[STRING],
        result: b"V",
        member: b"println(Ljava/lang/String;)V",
    },
    ListedMethod {
        name: b"println",
        params: &[b"Z"],
        result: b"V",
        member: b"println(Z)V",
    },
];

const OBJECT_METHODS: &[ListedMethod] = &[
    ListedMethod {
        name: b"<init>",
        params: &[],
        result: b"V",
        member: b"<init>()V",
    },
    ListedMethod {
        name: b"equals",
        params: &[OBJECT],
        result: b"Z",
        member: b"equals(Ljava/lang/Object;)Z",
    },
];

const STRING_METHODS: &[ListedMethod] = &[
    ListedMethod {
        name: b"charAt",
        params: &[b"I"],
        result: b"C",
        member: b"charAt(I)C",
    },
    ListedMethod {
        name: b"equals",
        params: &[OBJECT],
        result: b"Z",
        member: b"equals(Ljava/lang/Object;)Z",
    },
    ListedMethod {
        name: b"length",
        params: &[],
        result: b"I",
        member: b"length()I",
    },
];

const STRING_BUILDER_METHODS: &[ListedMethod] = &[
    ListedMethod {
        name: b"<init>",
        params: &[],
        result: b"V",
        member: b"<init>()V",
    },
    ListedMethod {
        name: b"<init>",
        params: &[STRING],
        result: b"V",
        member: b"<init>(Ljava/lang/String;)V",
    },
    ListedMethod {
        name: b"append",
        params: &[b"C"],
        result: STRING_BUILDER,
        member: b"append(C)Ljava/lang/StringBuilder;",
    },
    ListedMethod {
        name: b"append",
        params: &[b"I"],
        result: STRING_BUILDER,
        member: b"append(I)Ljava/lang/StringBuilder;",
    },
    ListedMethod {
        name: b"append",
        params: &[b"J"],
        result: STRING_BUILDER,
        member: b"append(J)Ljava/lang/StringBuilder;",
    },
    ListedMethod {
        name: b"append",
        params: &[STRING],
        result: STRING_BUILDER,
        member: b"append(Ljava/lang/String;)Ljava/lang/StringBuilder;",
    },
    ListedMethod {
        name: b"append",
        params: &[b"Z"],
        result: STRING_BUILDER,
        member: b"append(Z)Ljava/lang/StringBuilder;",
    },
    ListedMethod {
        name: b"toString",
        params: &[],
        result: STRING,
        member: b"toString()Ljava/lang/String;",
    },
];

/// What each array has.
const ARRAY_METHODS: &[ListedMethod] = &[ListedMethod {
    name: b"clone",
    params: &[],
    result: OBJECT,
    member: b"clone()Ljava/lang/Object;",
}];

/// The classes, in the order of their names.
const CLASSES: &[ListedClass] = &[
    ListedClass {
        name: b"Ljava/io/PrintStream;",
        superclass: Some(OBJECT),
        is_throwable: false,
        methods: PRINT_STREAM_METHODS,
    },
    ListedClass {
        name: b"Ljava/lang/AbstractMethodError;",
        superclass: Some(INCOMPATIBLE_CHANGE),
        is_throwable: true,
        methods: CONSTRUCTORS,
    },
    ListedClass {
        name: b"Ljava/lang/ArithmeticException;",
        superclass: Some(RUNTIME_EXCEPTION),
        is_throwable: true,
        methods: CONSTRUCTORS,
    },
    ListedClass {
        name: b"Ljava/lang/ArrayIndexOutOfBoundsException;",
        superclass: Some(INDEX_OUT_OF_BOUNDS),
        is_throwable: true,
        methods: CONSTRUCTORS,
    },
    ListedClass {
        name: b"Ljava/lang/ArrayStoreException;",
        superclass: Some(RUNTIME_EXCEPTION),
        is_throwable: true,
        methods: CONSTRUCTORS,
    },
    ListedClass {
        name: b"Ljava/lang/ClassCastException;",
        superclass: Some(RUNTIME_EXCEPTION),
        is_throwable: true,
        methods: CONSTRUCTORS,
    },
    ListedClass {
        name: ERROR,
        superclass: Some(THROWABLE),
        is_throwable: true,
        methods: CONSTRUCTORS,
    },
    ListedClass {
        name: EXCEPTION,
        superclass: Some(THROWABLE),
        is_throwable: true,
        methods: CONSTRUCTORS,
    },
    ListedClass {
        name: b"Ljava/lang/ExceptionInInitializerError;",
        superclass: Some(LINKAGE_ERROR),
        is_throwable: true,
        methods: CONSTRUCTORS,
    },
    ListedClass {
        name: b"Ljava/lang/IllegalArgumentException;",
        superclass: Some(RUNTIME_EXCEPTION),
        is_throwable: true,
        methods: CONSTRUCTORS,
    },
    ListedClass {
        name: b"Ljava/lang/IllegalStateException;",
        superclass: Some(RUNTIME_EXCEPTION),
        is_throwable: true,
        methods: CONSTRUCTORS,
    },
    ListedClass {
        name: INCOMPATIBLE_CHANGE,
        superclass: Some(LINKAGE_ERROR),
        is_throwable: true,
        methods: CONSTRUCTORS,
    },
    ListedClass {
        name: INDEX_OUT_OF_BOUNDS,
        superclass: Some(RUNTIME_EXCEPTION),
        is_throwable: true,
        methods: CONSTRUCTORS,
    },
    ListedClass {
        name: LINKAGE_ERROR,
        superclass: Some(ERROR),
        is_throwable: true,
        methods: CONSTRUCTORS,
    },
    ListedClass {
        name: b"Ljava/lang/NegativeArraySizeException;",
        superclass: Some(RUNTIME_EXCEPTION),
        is_throwable: true,
        methods: CONSTRUCTORS,
    },
    ListedClass {
        name: b"Ljava/lang/NoClassDefFoundError;",
        superclass: Some(LINKAGE_ERROR),
        is_throwable: true,
        methods: CONSTRUCTORS,
    },
    ListedClass {
        name: b"Ljava/lang/NullPointerException;",
        superclass: Some(RUNTIME_EXCEPTION),
        is_throwable: true,
        methods: CONSTRUCTORS,
    },
    ListedClass {
        name: OBJECT,
        superclass: None,
        is_throwable: false,
        methods: OBJECT_METHODS,
    },
    ListedClass {
        name: RUNTIME_EXCEPTION,
        superclass: Some(EXCEPTION),
        is_throwable: true,
        methods: CONSTRUCTORS,
    },
    ListedClass {
        name: b"Ljava/lang/StackOverflowError;",
        superclass: Some(VIRTUAL_MACHINE_ERROR),
        is_throwable: true,
        methods: CONSTRUCTORS,
    },
    ListedClass {
        name: STRING,
        superclass: Some(OBJECT),
        is_throwable: false,
        methods: STRING_METHODS,
    },
    ListedClass {
        name: STRING_BUILDER,
        superclass: Some(OBJECT),
        is_throwable: false,
        methods: STRING_BUILDER_METHODS,
    },
    ListedClass {
        name: b"Ljava/lang/StringIndexOutOfBoundsException;",
        superclass: Some(INDEX_OUT_OF_BOUNDS),
        is_throwable: true,
        methods: CONSTRUCTORS,
    },
    ListedClass {
        name: b"Ljava/lang/System;",
        superclass: Some(OBJECT),
        is_throwable: false,
        methods: &[],
    },
    ListedClass {
        name: THROWABLE,
        superclass: Some(OBJECT),
        is_throwable: true,
        methods: THROWABLE_METHODS,
    },
    ListedClass {
        name: VIRTUAL_MACHINE_ERROR,
        superclass: Some(ERROR),
        is_throwable: true,
        methods: CONSTRUCTORS,
    },
];

/// The built-in classes in the order of their names.
pub fn built_in_classes() -> &'static [ListedClass]
    ensures { AreClasses result.now }
{
    CLASSES
}

/// The methods that each array has.
pub fn array_methods() -> &'static [ListedMethod]
    ensures { (class : List ℕ) → AreMethods class result.now (array_methods class) }
{
    ARRAY_METHODS
}
