//! The types of resources that are declared before the first line of a source. The file is made by
//! tools/types.py.
#![tactic(auto)]

ghost use Rattle.std.specs.Prelude.{◌≡◌};

/// The statements `type` of `types/types.r`.
pub const TABLE: &[u8] = br#"/*
    Types of resources, as macmem knows them before the first line of a source. This is version 1 of the table: 'macmem --version' prints it.

    The layouts are those of Inside Macintosh; above each type stand the volume and the chapter that describe it. The names of
    constants are those that sources of Rez use. The language is the part of Rez that docs/types.md describes.

    Where a type has two forms, the later one is in force for a source, and is the one by which bytes are read first.

    A resource 'CODE' 0 has a layout, and all other ones hold code. The language does not tell IDs apart, so 'CODE' is not here.
*/


/* ---- Texts ---- */

/* A string. Text, "Text Utilities". */
type 'STR ' {
    pstring;
};

/* A list of strings. Text, "Text Utilities". */
type 'STR#' {
    integer = $$CountOf(StringArray);
    array StringArray {
        pstring;
    };
};

/* A text without a style. Text, "TextEdit". */
type 'TEXT' {
    string;
};

/* The styles of a text, as the scrap has them. Text, "TextEdit". */
type 'styl' {
    integer = $$CountOf(StyleArray);
    array StyleArray {
        longint;                    /* place of the first character */
        integer;                    /* height of a line */
        integer;                    /* ascent */
        integer;                    /* font family */
        hex byte plain = 0, bold = 1, italic = 2, underline = 4, outline = 8, shadow = 16, condense = 32, extend = 64;
        fill byte;
        integer;                    /* size */
        unsigned integer; unsigned integer; unsigned integer;   /* red, green, blue */
    };
};

/* The version of a file. Macintosh Toolbox Essentials, "Finder Interface"; regions: Text, "Script Manager". */
type 'vers' {
    hex byte;                       /* first part, two decimal digits */
    hex byte;                       /* second and third part, a decimal digit each */
    hex byte development = 0x20, alpha = 0x40, beta = 0x60, final = 0x80, release = 0x80;
    hex byte;                       /* number of what came before the release */
    integer                         /* region */
        verUS = 0, verFrance = 1, verBritain = 2, verGermany = 3, verItaly = 4, verNetherlands = 5,
        verFrBelgiumLux = 6, verBelgiumLux = 6, verSweden = 7, verSpain = 8, verDenmark = 9, verPortugal = 10,
        verFrCanada = 11, verNorway = 12, verIsrael = 13, verJapan = 14, verAustralia = 15, verArabic = 16, verArabia = 16,
        verFinland = 17, verFrSwiss = 18, verGrSwiss = 19, verGreece = 20, verIceland = 21, verMalta = 22, verCyprus = 23,
        verTurkey = 24, verYugoCroatian = 25, verYugoslavia = 25, verIndiaHindi = 33, verIndia = 33, verPakistan = 34,
        verLithuania = 41, verPoland = 42, verHungary = 43, verEstonia = 44, verLatvia = 45, verLapland = 46,
        verFaeroeIsl = 47, verIran = 48, verRussia = 49, verIreland = 50, verKorea = 51, verChina = 52, verTaiwan = 53,
        verThailand = 54;
    pstring;                        /* version alone */
    pstring;                        /* version, with the name and the copyright */
};


/* ---- Applications ---- */

/* What an application can do, and how much memory it needs. Macintosh Toolbox Essentials, "Event Manager". */
type 'SIZE' {
    boolean reserved;
    boolean ignoreSuspendResumeEvents, acceptSuspendResumeEvents;
    boolean reserved;
    boolean cannotBackground, canBackground;
    boolean needsActivateOnFGSwitch, doesActivateOnFGSwitch;
    boolean backgroundAndForeground, onlyBackground;
    boolean dontGetFrontClicks, getFrontClicks;
    boolean ignoreAppDiedEvents, acceptAppDiedEvents;
    boolean not32BitCompatible, is32BitCompatible;
    boolean notHighLevelEventAware, isHighLevelEventAware;
    boolean onlyLocalHLEvents, localAndRemoteHLEvents;
    boolean notStationeryAware, isStationeryAware;
    boolean dontUseTextEditServices, useTextEditServices;
    boolean reserved = 0, notDisplayManagerAware = 0, isDisplayManagerAware = 1;
    boolean reserved;
    boolean reserved;
    unsigned longint;               /* preferred bytes */
    unsigned longint;               /* least bytes */
};

/* The icons and the files of an application. Macintosh Toolbox Essentials, "Finder Interface". */
type 'BNDL' {
    literal longint;                /* signature */
    integer;                        /* ID of the signature's resource */
    integer = $$CountOf(TypeArray) - 1;
    array TypeArray {
        literal longint;            /* type */
        integer = $$CountOf(IDArray) - 1;
        array IDArray {
            integer;                /* local ID */
            integer;                /* ID of the resource */
        };
    };
};

/* A type of file that an application has. Macintosh Toolbox Essentials, "Finder Interface". */
type 'FREF' {
    literal longint;                /* type of the file */
    integer;                        /* local ID of its icons */
    pstring;                        /* name of a file; empty */
};

/* A driver. Devices, "Device Manager". */
type 'DRVR' {
    unsigned hex integer;           /* flags */
    integer;                        /* ticks between periodic actions */
    unsigned hex integer;           /* events */
    integer;                        /* menu ID */
    integer;                        /* offset of Open */
    integer;                        /* offset of Prime */
    integer;                        /* offset of Control */
    integer;                        /* offset of Status */
    integer;                        /* offset of Close */
    pstring;                        /* name */
    hex string;                     /* code */
};


/* ---- Menus ---- */

/* The menus of a menu bar. Macintosh Toolbox Essentials, "Menu Manager". */
type 'MBAR' {
    integer = $$CountOf(MenuArray);
    array MenuArray {
        integer;                    /* ID of a 'MENU' */
    };
};

/* A menu. Macintosh Toolbox Essentials, "Menu Manager". */
type 'MENU' {
    integer;                        /* menu ID */
    fill word[2];
    integer textMenuProc = 0;       /* ID of the menu definition function */
    fill word;
    unsigned hex bitstring[31] allEnabled = 0x7FFFFFFF;
    boolean disabled, enabled;      /* the menu as a whole */
    pstring apple = "\0x14";        /* title */
    array {
        pstring;                    /* text of the item */
        byte noIcon = 0;
        char noKey = "\0x00", hierarchicalMenu = "\0x1B";
        char noMark = "\0x00", check = "\0x12";
        fill bit;
        unsigned bitstring[7] plain = 0;
    };
    byte = 0;
};

/* The colours of menus. Macintosh Toolbox Essentials, "Menu Manager". */
type 'mctb' {
    integer = $$CountOf(MCEntryArray);
    array MCEntryArray {
        integer;                    /* menu ID; 0 for the menu bar, -99 after the last entry */
        integer;                    /* item; 0 for the title */
        unsigned integer; unsigned integer; unsigned integer;   /* of a mark, a title, .. : four colours */
        unsigned integer; unsigned integer; unsigned integer;
        unsigned integer; unsigned integer; unsigned integer;
        unsigned integer; unsigned integer; unsigned integer;
        fill word;
    };
};


/* ---- Windows, dialogs, controls ---- */

/* A window. Macintosh Toolbox Essentials, "Window Manager". */
type 'WIND' {
    rect;                           /* content, in global coordinates */
    integer documentProc = 0, dBoxProc = 1, plainDBox = 2, altDBoxProc = 3, noGrowDocProc = 4, movableDBoxProc = 5,
        zoomDocProc = 8, zoomNoGrow = 12, rDocProc = 16;
    byte invisible, visible;
    fill byte;
    byte noGoAway, goAway;
    fill byte;
    unsigned hex longint;           /* reference constant */
    pstring Untitled = "Untitled";  /* title */
};

/* The same with its place on the screen. */
type 'WIND' {
    rect;
    integer documentProc = 0, dBoxProc = 1, plainDBox = 2, altDBoxProc = 3, noGrowDocProc = 4, movableDBoxProc = 5,
        zoomDocProc = 8, zoomNoGrow = 12, rDocProc = 16;
    byte invisible, visible;
    fill byte;
    byte noGoAway, goAway;
    fill byte;
    unsigned hex longint;
    pstring Untitled = "Untitled";
    align word;
    unsigned hex integer
        noAutoCenter = 0x0000, centerMainScreen = 0x280A, alertPositionMainScreen = 0x300A, staggerMainScreen = 0x380A,
        centerParentWindow = 0xA80A, alertPositionParentWindow = 0xB00A, staggerParentWindow = 0xB80A,
        centerParentWindowScreen = 0x680A, alertPositionParentWindowScreen = 0x700A, staggerParentWindowScreen = 0x780A;
};

/* A dialog. Macintosh Toolbox Essentials, "Dialog Manager". */
type 'DLOG' {
    rect;                           /* content, in global coordinates */
    integer documentProc = 0, dBoxProc = 1, plainDBox = 2, altDBoxProc = 3, noGrowDocProc = 4, movableDBoxProc = 5,
        zoomDocProc = 8, zoomNoGrow = 12, rDocProc = 16;
    byte invisible, visible;
    fill byte;
    byte noGoAway, goAway;
    fill byte;
    unsigned hex longint;           /* reference constant */
    integer;                        /* ID of its 'DITL' */
    pstring;                        /* title */
};

/* The same with its place on the screen. */
type 'DLOG' {
    rect;
    integer documentProc = 0, dBoxProc = 1, plainDBox = 2, altDBoxProc = 3, noGrowDocProc = 4, movableDBoxProc = 5,
        zoomDocProc = 8, zoomNoGrow = 12, rDocProc = 16;
    byte invisible, visible;
    fill byte;
    byte noGoAway, goAway;
    fill byte;
    unsigned hex longint;
    integer;
    pstring;
    align word;
    unsigned hex integer
        noAutoCenter = 0x0000, centerMainScreen = 0x280A, alertPositionMainScreen = 0x300A, staggerMainScreen = 0x380A,
        centerParentWindow = 0xA80A, alertPositionParentWindow = 0xB00A, staggerParentWindow = 0xB80A,
        centerParentWindowScreen = 0x680A, alertPositionParentWindowScreen = 0x700A, staggerParentWindowScreen = 0x780A;
};

/* An alert. Macintosh Toolbox Essentials, "Dialog Manager". Its four stages have four bits each; two of them are an element here. */
type 'ALRT' {
    rect;                           /* content, in global coordinates */
    integer;                        /* ID of its 'DITL' */
    array [2] {                     /* the fourth stage and the third, the second and the first */
        boolean OK, Cancel;
        boolean invisible, visible;
        unsigned bitstring[2] silent = 0, sound1 = 1, sound2 = 2, sound3 = 3;
        boolean OK, Cancel;
        boolean invisible, visible;
        unsigned bitstring[2] silent = 0, sound1 = 1, sound2 = 2, sound3 = 3;
    };
};

/* The same with its place on the screen. */
type 'ALRT' {
    rect;
    integer;
    array [2] {
        boolean OK, Cancel;
        boolean invisible, visible;
        unsigned bitstring[2] silent = 0, sound1 = 1, sound2 = 2, sound3 = 3;
        boolean OK, Cancel;
        boolean invisible, visible;
        unsigned bitstring[2] silent = 0, sound1 = 1, sound2 = 2, sound3 = 3;
    };
    unsigned hex integer
        noAutoCenter = 0x0000, centerMainScreen = 0x280A, alertPositionMainScreen = 0x300A, staggerMainScreen = 0x380A,
        centerParentWindow = 0xA80A, alertPositionParentWindow = 0xB00A, staggerParentWindow = 0xB80A,
        centerParentWindowScreen = 0x680A, alertPositionParentWindowScreen = 0x700A, staggerParentWindowScreen = 0x780A;
};

/* The items of a dialog or an alert. Macintosh Toolbox Essentials, "Dialog Manager"; help items: More Macintosh Toolbox, "Help Manager". */
type 'DITL' {
    integer = $$CountOf(DITLarray) - 1;
    array DITLarray {
        fill long;
        rect;                       /* place in the window */
        switch {
            case Button:
                boolean enabled, disabled;
                key bitstring[7] = 4;
                pstring;            /* title */
            case CheckBox:
                boolean enabled, disabled;
                key bitstring[7] = 5;
                pstring;            /* title */
            case RadioButton:
                boolean enabled, disabled;
                key bitstring[7] = 6;
                pstring;            /* title */
            case Control:
                boolean enabled, disabled;
                key bitstring[7] = 7;
                byte = 2;
                integer;            /* ID of a 'CNTL' */
            case StaticText:
                boolean enabled, disabled;
                key bitstring[7] = 8;
                pstring;            /* text */
            case EditText:
                boolean enabled, disabled;
                key bitstring[7] = 16;
                pstring;            /* text */
            case Icon:
                boolean enabled, disabled;
                key bitstring[7] = 32;
                byte = 2;
                integer;            /* ID of an 'ICON' or a 'cicn' */
            case Picture:
                boolean enabled, disabled;
                key bitstring[7] = 64;
                byte = 2;
                integer;            /* ID of a 'PICT' */
            case UserItem:
                boolean enabled, disabled;
                key bitstring[7] = 0;
                byte = 0;
            case HelpItem:
                boolean enabled, disabled;
                key bitstring[7] = 1;
                switch {
                    case HMScanhdlg:
                        byte = 4;
                        key integer = 1;
                        integer;    /* ID of a 'hdlg' */
                    case HMScanhrct:
                        byte = 4;
                        key integer = 2;
                        integer;    /* ID of a 'hrct' */
                    case HMScanAppendhdlg:
                        byte = 6;
                        key integer = 8;
                        integer;    /* ID of a 'hdlg' */
                        integer;    /* item after which its items stand */
                };
        };
        align word;
    };
};

/* A control. Macintosh Toolbox Essentials, "Control Manager". */
type 'CNTL' {
    rect;                           /* place in the window */
    integer;                        /* value */
    byte invisible, visible;
    fill byte;
    integer;                        /* greatest value */
    integer;                        /* least value */
    integer pushButProc = 0, checkBoxProc = 1, radioButProc = 2, pushButProcUseWFont = 8, checkBoxProcUseWFont = 9,
        radioButProcUseWFont = 10, scrollBarProc = 16;
    longint;                        /* reference constant */
    pstring;                        /* title */
};


/* ---- Icons, cursors, patterns, pictures ---- */

/* An icon of 32 rows of 32 bits. More Macintosh Toolbox, "Icon Utilities". */
type 'ICON' {
    hex string[128];
};

/* A list of icons; in a family of icons, an icon and its mask. More Macintosh Toolbox, "Icon Utilities". */
type 'ICN#' {
    array {
        hex string[128];
    };
};

/* The same of 16 rows, and of 12 rows, of 16 bits. More Macintosh Toolbox, "Icon Utilities". */
type 'ics#' {
    array {
        hex string[32];
    };
};

type 'icm#' {
    array {
        hex string[24];
    };
};

/* Icons of 32 by 32, 16 by 16, and 16 by 12 pixels of 4 and of 8 bits. More Macintosh Toolbox, "Icon Utilities". */
type 'icl4' {
    hex string[512];
};

type 'icl8' {
    hex string[1024];
};

type 'ics4' {
    hex string[128];
};

type 'ics8' {
    hex string[256];
};

type 'icm4' {
    hex string[96];
};

type 'icm8' {
    hex string[192];
};

/* A list of icons of 16 rows of 16 bits. More Macintosh Toolbox, "Icon Utilities". */
type 'SICN' {
    array {
        hex string[32];
    };
};

/* A cursor. Imaging With QuickDraw, "Cursor Utilities". */
type 'CURS' {
    hex string[32];                 /* 16 rows of 16 bits */
    hex string[32];                 /* mask */
    point;                          /* hot spot */
};

/* The cursors of an animated one. Imaging With QuickDraw, "Cursor Utilities". */
type 'acur' {
    integer = $$CountOf(CursArray);
    fill word;
    array CursArray {
        integer;                    /* ID of a 'CURS' */
        fill word;
    };
};

/* A cursor in colours. Imaging With QuickDraw, "Cursor Utilities". What its offsets lead to is one string at the end. */
type 'crsr' {
    unsigned hex integer;           /* kind: 0x8000 or 0x8001 */
    unsigned hex longint;           /* offset of the pixel map */
    unsigned hex longint;           /* offset of the pixels */
    fill word[5];
    hex string[32];                 /* 16 rows of 16 bits */
    hex string[32];                 /* mask */
    point;                          /* hot spot */
    unsigned hex longint;           /* offset of the table of colours */
    unsigned hex longint;           /* ID */
    fill long;
    unsigned hex integer;           /* bytes of a row, and the mark of a pixel map */
    rect;                           /* bounds */
    integer;                        /* version */
    integer;                        /* kind of packing */
    longint;                        /* packed bytes */
    unsigned hex longint;           /* horizontal resolution */
    unsigned hex longint;           /* vertical resolution */
    integer;                        /* kind of pixels */
    integer;                        /* bits of a pixel */
    integer;                        /* parts of a pixel */
    integer;                        /* bits of a part */
    longint;                        /* offset of the next plane */
    unsigned hex longint;           /* offset of the table of colours */
    fill long;
    hex string;                     /* pixels, table of colours */
};

/* A pattern of 8 rows of 8 bits, and a list of them. Imaging With QuickDraw, "QuickDraw Drawing". */
type 'PAT ' {
    hex string[8];
};

type 'PAT#' {
    integer = $$CountOf(PatArray);
    array PatArray {
        hex string[8];
    };
};

/* A pattern in colours. Imaging With QuickDraw, "Color QuickDraw". What its offsets lead to is one string at the end. */
type 'ppat' {
    integer;                        /* kind */
    unsigned hex longint;           /* offset of the pixel map */
    unsigned hex longint;           /* offset of the pixels */
    fill long;
    integer;                        /* -1 */
    fill long;
    hex string[8];                  /* pattern of 8 rows of 8 bits */
    fill long;
    unsigned hex integer;           /* bytes of a row, and the mark of a pixel map */
    rect;                           /* bounds */
    integer;                        /* version */
    integer;                        /* kind of packing */
    longint;                        /* packed bytes */
    unsigned hex longint;           /* horizontal resolution */
    unsigned hex longint;           /* vertical resolution */
    integer;                        /* kind of pixels */
    integer;                        /* bits of a pixel */
    integer;                        /* parts of a pixel */
    integer;                        /* bits of a part */
    longint;                        /* offset of the next plane */
    unsigned hex longint;           /* offset of the table of colours */
    fill long;
    hex string;                     /* pixels, table of colours */
};

/* An icon in colours. Imaging With QuickDraw, "Color QuickDraw". Its bits, colours and pixels are one string at the end. */
type 'cicn' {
    fill long;
    unsigned hex integer;           /* bytes of a row, and the mark of a pixel map */
    rect;                           /* bounds */
    integer;                        /* version */
    integer;                        /* kind of packing */
    longint;                        /* packed bytes */
    unsigned hex longint;           /* horizontal resolution */
    unsigned hex longint;           /* vertical resolution */
    integer;                        /* kind of pixels */
    integer;                        /* bits of a pixel */
    integer;                        /* parts of a pixel */
    integer;                        /* bits of a part */
    longint;                        /* offset of the next plane */
    unsigned hex longint;           /* table of colours */
    fill long[2];
    integer;                        /* bytes of a row of the mask */
    rect;                           /* bounds of the mask */
    fill long;
    integer;                        /* bytes of a row of the icon of one bit */
    rect;                           /* bounds of the icon of one bit */
    fill long;
    hex string;                     /* mask, icon of one bit, table of colours, pixels */
};

/* A picture. Imaging With QuickDraw, "Pictures". */
type 'PICT' {
    unsigned hex integer;           /* its length, or the end of it */
    rect;                           /* frame */
    hex string;                     /* what is drawn */
};


/* ---- Colours ---- */

/* A table of colours. Imaging With QuickDraw, "Color QuickDraw". */
type 'clut' {
    unsigned hex longint;           /* seed */
    integer;                        /* flags */
    integer = $$CountOf(ColorSpec) - 1;
    array ColorSpec {
        integer;                    /* value */
        unsigned integer; unsigned integer; unsigned integer;   /* red, green, blue */
    };
};

/* The colours of a window, a dialog, an alert. Macintosh Toolbox Essentials, "Window Manager" and "Dialog Manager". */
type 'wctb' {
    unsigned hex longint;           /* seed */
    integer;                        /* flags */
    integer = $$CountOf(ColorSpec) - 1;
    array ColorSpec {
        integer wContentColor = 0, wFrameColor = 1, wTextColor = 2, wHiliteColor = 3, wTitleBarColor = 4;
        unsigned integer; unsigned integer; unsigned integer;   /* red, green, blue */
    };
};

type 'dctb' as 'wctb';

type 'actb' as 'wctb';

/* The colours of a control. Macintosh Toolbox Essentials, "Control Manager". */
type 'cctb' {
    unsigned hex longint;           /* seed */
    integer;                        /* flags */
    integer = $$CountOf(ColorSpec) - 1;
    array ColorSpec {
        integer cFrameColor = 0, cBodyColor = 1, cTextColor = 2, cThumbColor = 3;
        unsigned integer; unsigned integer; unsigned integer;   /* red, green, blue */
    };
};


/* ---- Fonts ---- */

/* A font family. Text, "Font Manager". What its offsets lead to is one string at the end. */
type 'FOND' {
    unsigned hex integer;           /* flags */
    integer;                        /* ID of the family */
    integer;                        /* first character */
    integer;                        /* last character */
    integer;                        /* ascent, of a size of 1 point in 4096ths */
    integer;                        /* descent */
    integer;                        /* leading */
    integer;                        /* greatest width */
    longint;                        /* offset of the widths */
    longint;                        /* offset of the kerning */
    longint;                        /* offset of the names of styles */
    integer; integer; integer; integer; integer; integer; integer; integer; integer;    /* widths that styles add */
    fill long;
    integer;                        /* version */
    integer = $$CountOf(FontArray) - 1;
    array FontArray {
        integer;                    /* size */
        integer;                    /* style */
        integer;                    /* ID of the font */
    };
    hex string;                     /* widths, names of styles, kerning */
};

/* A font of bits. Text, "Font Manager". */
type 'NFNT' {
    unsigned hex integer;           /* kind */
    integer;                        /* first character */
    integer;                        /* last character */
    integer;                        /* greatest width */
    integer;                        /* greatest kerning */
    integer;                        /* negative descent */
    integer;                        /* width of the rectangle */
    integer;                        /* height of the rectangle */
    integer;                        /* words up to the table of offsets and widths */
    integer;                        /* ascent */
    integer;                        /* descent */
    integer;                        /* leading */
    integer;                        /* words of a row */
    hex string;                     /* bits, places, offsets and widths */
};

type 'FONT' as 'NFNT';

/* A part of a PostScript font: not in Inside Macintosh; Adobe's Technical Note 5040. */
type 'POST' {
    switch {
        case Remark:
            key byte = 0;
            fill byte;
            string;
        case Text:
            key byte = 1;
            fill byte;
            string;
        case Binary:
            key byte = 2;
            fill byte;
            hex string;
        case EndOfFile:
            key byte = 3;
            fill byte;
        case InData:                /* the font is in the data fork */
            key byte = 4;
            fill byte;
        case End:
            key byte = 5;
            fill byte;
    };
};


/* ---- Sounds ---- */

/* A sound. Sound, "Sound Manager". What its commands lead to is one string at the end. */
type 'snd ' {
    switch {
        case FormatOne:
            key integer = 1;
            integer = $$CountOf(Synthesizers);
            array Synthesizers {
                integer squareWaveSynth = 1, waveTableSynth = 3, sampledSynth = 5;
                unsigned hex longint;   /* options */
            };
        case FormatTwo:
            key integer = 2;
            integer;                /* references */
    };
    integer = $$CountOf(Commands);
    array Commands {
        boolean noData, hasData;
        unsigned bitstring[15]
            nullCmd = 0, quietCmd = 3, flushCmd = 4, reInitCmd = 5, waitCmd = 10, pauseCmd = 11, resumeCmd = 12,
            callBackCmd = 13, syncCmd = 14, availableCmd = 24, versionCmd = 25, totalLoadCmd = 26, loadCmd = 27,
            freqDurationCmd = 40, restCmd = 41, freqCmd = 42, ampCmd = 43, timbreCmd = 44, getAmpCmd = 45, volumeCmd = 46,
            getVolumeCmd = 47, waveTableCmd = 60, phaseCmd = 61, soundCmd = 80, bufferCmd = 81, rateCmd = 82,
            continueCmd = 83, doubleBufferCmd = 84, getRateCmd = 85;
        integer;                    /* first parameter */
        longint;                    /* second parameter, or the offset of the data */
    };
    hex string;                     /* wave tables, samples */
};


/* ---- Languages and keyboards ---- */

/* What belongs to a script system. Text, "International Resources". */
type 'itlb' {
    integer;                        /* ID of its 'itl0' */
    integer;                        /* ID of its 'itl1' */
    integer;                        /* ID of its 'itl2' */
    unsigned hex integer;           /* flags */
    integer;                        /* ID of its 'itl4' */
    integer;                        /* ID of its 'itl5' */
    integer;                        /* language */
    byte;                           /* kind of numerals */
    byte;                           /* calendar */
    integer;                        /* ID of its 'KCHR' */
    integer;                        /* ID of its icons */
    hex string;                     /* fonts and styles */
};

/* The characters of keys. Text, "Keyboard Resources". */
type 'KCHR' {
    unsigned hex integer;           /* version */
    hex string[256];                /* the table of each set of modifier keys */
    integer = $$CountOf(TableArray);
    array TableArray {
        hex string[128];            /* the character of each key */
    };
    integer = $$CountOf(DeadArray);
    array DeadArray {               /* dead keys */
        byte;                       /* table */
        unsigned hex byte;          /* key */
        integer = $$CountOf(PairArray);
        array PairArray {
            char;                   /* character that follows */
            char;                   /* character that comes of both */
        };
        char; char;                 /* where another follows */
    };
};


/* ---- Others ---- */

/* A template of resources: not in Inside Macintosh; ResEdit Reference. */
type 'TMPL' {
    array {
        pstring;                    /* label */
        literal longint;            /* kind of field */
    };
};

/* A list of rectangles, and a rectangle. More Macintosh Toolbox, "Resource Manager". */
type 'nrct' {
    integer = $$CountOf(RectArray);
    array RectArray {
        rect;
    };
};

type 'RECT' {
    rect;
};

/* The help of an application's icon. More Macintosh Toolbox, "Help Manager". */
type 'hfdr' {
    integer HelpMgrVersion = 2;
    unsigned hex longint hmDefaultOptions = 0;
    integer;                        /* ID of the balloon definition function */
    integer;                        /* kind of balloon */
    integer = $$CountOf(HelpArray);
    array HelpArray {
        switch {
            case HMStringItem:
                integer;            /* bytes of the item */
                key integer = 1;
                pstring;
            case HMPictItem:
                integer;
                key integer = 2;
                integer;            /* ID of a 'PICT' */
            case HMStringResItem:
                integer;
                key integer = 3;
                integer;            /* ID of a 'STR#' */
                integer;            /* which string of it */
            case HMTEResItem:
                integer;
                key integer = 6;
                integer;            /* ID of a 'TEXT' and a 'styl' */
            case HMSTRResItem:
                integer;
                key integer = 7;
                integer;            /* ID of a 'STR ' */
            case HMSkipItem:
                integer;
                key integer = 256;
        };
        align word;
    };
};
"#;

/// Returns the statements `type` that are in force before the first line of a source.
pub fn table() -> &'static [u8]
    ensures { result.now ≡ TABLE.now }
{
    TABLE
}
